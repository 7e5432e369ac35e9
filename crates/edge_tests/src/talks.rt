//! Talks with a handler that answers with the body that it was sent, and with the status that a target's digits say:
//! what is read, and what is to be written for it. They were worked out by hand, from RFC 9112 and from docs/HTTP.md.

/// Talks at a port whose refusals are JSON: what is refused there, and that no other reply is another.
pub const JSON_TALKS: &str = r#"
# a head that is none, with one behind it
\x20{GET}{GET} -> {JSON_BAD}
# no Host, and the reply to HEAD
GET / HTTP/1.1\r\n\r\n -> {JSON_BAD}
HEAD / HTTP/1.1\r\n\r\n -> {JSON_HEAD_BAD}
# more fields than there is room for
GET /{C}{FIELD*64}{NL} -> {JSON_TOO_MANY}
# a length that is too great, and the reply to HEAD
{GET}{LENGTH} 20971521\r\n\r\nabc -> {OK}{JSON_TOO_LARGE}
HEAD /{C}Content-Length: 20971521\r\n\r\n -> {JSON_HEAD_TOO_LARGE}
# chunks that are too long, and that are none
{CHUNKED}3\r\nabc\r\n13ffffe\r\n -> {JSON_TOO_LARGE}
{POST}Expect: 100-continue\r\nTransfer-Encoding: chunked\r\n\r\n1400001\r\n -> {CONTINUE}{JSON_TOO_LARGE}
{CHUNKED}z\r\n -> {JSON_BAD}
HEAD /{C}Transfer-Encoding: chunked\r\n\r\nz\r\n -> {JSON_HEAD_BAD}
# no memory
POST /503{C}\r\n{GET} -> {JSON_HEAD_NO_MEMORY}{NO_MEMORY_TOLD}{OK}
POST /503 HTTP/1.0\r\n\r\n{GET} -> {JSON_HEAD_NO_MEMORY_CLOSE}{NO_MEMORY_TOLD}
HEAD /503{C}\r\n{GET} -> {JSON_HEAD_NO_MEMORY}{OK}
HEAD /503 HTTP/1.0\r\n\r\n{GET} -> {JSON_HEAD_NO_MEMORY_CLOSE}
# what the handler says
POST /431{C}Content-Length: 1\r\n\r\na -> {FIELDS_TOO_LARGE}{OF_A}
"#;

/// Talks of a few hundred bytes.
pub const TALKS: &str = r#"
## Heads that are taken
# a head, a second one after it, and its lines ended by LF alone
{GET}GET / HTTP/1.1\nHost: c\n\n -> {OK}{OK}
# empty lines before a head
\r\n\n{GET}\r\n{GET} -> {OK}{OK}
# a name in another case, blanks around a value, an empty value
GET / HTTP/1.1\r\nhOST: \t c \t\r\nx:\r\n\r\n -> {OK}
# a Host without a value: it is not tested
GET / HTTP/1.1\r\nHost:\r\n\r\n -> {OK}
# a whole URI as target, and an unknown method
BREW http://h/v1/traces{C}\r\n -> {OK}
# bytes past ASCII in a value
GET / HTTP/1.1\r\nHost: \xff\r\n\r\n -> {OK}
# HTTP/1.0 needs no Host, and closes
GET / HTTP/1.0\r\n\r\nGET / HTTP/1.0\r\n\r\n -> {OK_CLOSE}
# HTTP/1.0 closes, whatever it says
GET / HTTP/1.0\r\nConnection: keep-alive\r\nHost: c\r\n\r\n -> {OK_CLOSE}
## Heads that are refused
# no Host
GET / HTTP/1.1\r\n\r\n -> {BAD}
# two of them
GET /{C}Host: c\r\n\r\n -> {BAD}
# two of them in HTTP/1.0
GET / HTTP/1.0\r\nHost: c\r\nhost: d\r\n\r\n -> {BAD}
# a space before the method
\x20{GET} -> {BAD}
# two spaces before the target
GET  /{C}\r\n -> {BAD}
# two spaces after it
GET / {C}\r\n -> {BAD}
# a space after the version
GET / HTTP/1.1 \r\nHost: c\r\n\r\n -> {BAD}
# HTTP/2.0
GET / HTTP/2.0\r\nHost: c\r\n\r\n -> {BAD}
# HTTP/1.2
GET / HTTP/1.2\r\nHost: c\r\n\r\n -> {BAD}
# a version in lower case
GET / http/1.1\r\nHost: c\r\n\r\n -> {BAD}
# no version
GET /\r\nHost: c\r\n\r\n -> {BAD}
# a method that is no token
GE(T /{C}\r\n -> {BAD}
# a control byte in the target
GET /\x7f{C}\r\n -> {BAD}
# a target that is not UTF-8
GET /\xff{C}\r\n -> {BAD}
# a blank before the colon
GET / HTTP/1.1\r\nHost : c\r\n\r\n -> {BAD}
# a folded line
GET /{C} d\r\n\r\n -> {BAD}
# a field without a name
GET /{C}: d\r\n\r\n -> {BAD}
# a field without a colon
GET /{C}x\r\n\r\n -> {BAD}
# a NUL in a value
GET / HTTP/1.1\r\nHost: c\x00\r\n\r\n -> {BAD}
# a control byte in a value
GET / HTTP/1.1\r\nHost: c\x01d\r\n\r\n -> {BAD}
# DEL in a value
GET / HTTP/1.1\r\nHost: c\x7f\r\n\r\n -> {BAD}
# a CR alone in a value
GET / HTTP/1.1\r\nHost: c\rd\r\n\r\n -> {BAD}
# a name that is no token
GET /{C}x(y: z\r\n\r\n -> {BAD}
# the preface of HTTP/2
PRI * HTTP/2.0\r\n\r\nSM\r\n\r\n -> {BAD}
# the hello of TLS
\x16\x03\x01\x02\x00 -> {BAD}
## Bodies with a stated length
# a body of three bytes, and a message after it
{LENGTH} 3\r\n\r\nabc{GET} -> {OK_ABC}{OK}
# leading zeros, up to 19 digits
{LENGTH} 0000000000000000003\r\n\r\nabc -> {OK_ABC}
# no body, stated or not
{LENGTH} 0\r\n\r\n{POST}\r\n -> {OK}{OK}
# a name in another case, blanks around the number
{POST}CONTENT-length: \t3 \t\r\n\r\nabc -> {OK_ABC}
# 20 digits
{LENGTH} 00000000000000000003\r\n\r\nabc -> {BAD}
# no digit
{LENGTH} \r\n\r\nabc -> {BAD}
# a sign
{LENGTH} +3\r\n\r\nabc -> {BAD}
# another sign
{LENGTH} -1\r\n\r\nabc -> {BAD}
# hexadecimal digits
{LENGTH} 0x3\r\n\r\nabc -> {BAD}
# a list
{LENGTH} 3, 3\r\n\r\nabc -> {BAD}
# a list without blanks
{LENGTH} 3,3\r\n\r\nabc -> {BAD}
# two numbers
{LENGTH} 3 3\r\n\r\nabc -> {BAD}
# a fraction
{LENGTH} 3.0\r\n\r\nabc -> {BAD}
# an exponent
{LENGTH} 3e0\r\n\r\nabc -> {BAD}
# 20 digits above 2^64
{LENGTH} 99999999999999999999\r\n\r\nabc -> {BAD}
# the same length twice
{LENGTH} 3\r\nContent-Length: 3\r\n\r\nabc -> {BAD}
# two lengths
{LENGTH} 0\r\nContent-Length: 3\r\n\r\nabc -> {BAD}
# one byte above what is taken: nothing of it is read
{LENGTH} 20971521\r\n\r\nabc -> {TOO_LARGE}
# the most that 19 digits say
{LENGTH} 9999999999999999999\r\n\r\nabc -> {TOO_LARGE}
## What `Transfer-Encoding` may say
# a chunk, and a message after it
{CHUNKED}{ABC}{GET} -> {OK_ABC}{OK}
# another case, blanks around it
{POST}transfer-ENCODING: \tcHUNKed \r\n\r\n{ABC} -> {OK_ABC}
# in HTTP/1.0
POST / HTTP/1.0\r\nTransfer-Encoding: chunked\r\n\r\n{ABC} -> {OK_ABC_CLOSE}
# twice in a list
{CODING} chunked, chunked\r\n\r\n{ABC} -> {BAD}
# another coding before it
{CODING} gzip, chunked\r\n\r\n{ABC} -> {BAD}
# another coding
{CODING} gzip\r\n\r\n{ABC} -> {BAD}
# identity
{CODING} identity\r\n\r\n{ABC} -> {BAD}
# nothing
{CODING} \r\n\r\n{ABC} -> {BAD}
# an empty member before it
{CODING} , chunked\r\n\r\n{ABC} -> {BAD}
# an empty member after it
{CODING} chunked,\r\n\r\n{ABC} -> {BAD}
# a longer word
{CODING} xchunked\r\n\r\n{ABC} -> {BAD}
# a parameter
{CODING} chunked;q=1\r\n\r\n{ABC} -> {BAD}
# a quoted word
{CODING} "chunked"\r\n\r\n{ABC} -> {BAD}
# two fields
{CODING} chunked\r\nTransfer-Encoding: chunked\r\n\r\n{ABC} -> {BAD}
# a length beside it
{CODING} chunked\r\nContent-Length: 3\r\n\r\n{ABC} -> {BAD}
# a length before it
{LENGTH} 13\r\nTransfer-Encoding: chunked\r\n\r\n{ABC} -> {BAD}
## Bodies in chunks
# three chunks
{CHUNKED}1\r\na\r\n1\r\nb\r\n1\r\nc\r\n0\r\n\r\n -> {OK_ABC}
# none
{CHUNKED}0\r\n\r\n -> {OK}
# extensions, and blanks before them
{CHUNKED}3;x=y\r\nabc\r\n0 \t;z\r\n\r\n -> {OK_ABC}
# leading zeros
{CHUNKED}0003\r\nabc\r\n000\r\n\r\n -> {OK_ABC}
# hexadecimal digits in either case
{CHUNKED}A\r\n0123456789\r\na\r\n0123456789\r\n0\r\n\r\n -> {OK_DIGITS}
# 16 digits
{CHUNKED}0000000000000003\r\nabc\r\n0000000000000000\r\n\r\n -> {OK_ABC}
# blanks after a size, without an extension
{CHUNKED}3 \t\r\nabc\r\n0\t \r\n\r\n -> {OK_ABC}
# an extension of any bytes but CR and LF
{CHUNKED}3;\x00\x01\x7f\xff\r\nabc\r\n0;\r\n\r\n -> {OK_ABC}
# data that looks like the end
{CHUNKED}14\r\n0\r\n\r\n56789\r\n\r\n345678\r\n0\r\n\r\n -> {OK_LINES}
# lines of a trailer, and its end, by LF alone
{CHUNKED}3\r\nabc\r\n0\r\nx: y\nz:\r\n\n{GET} -> {OK_ABC}{OK}
# an empty trailer, ended by LF alone
{CHUNKED}3\r\nabc\r\n0\r\n\n -> {OK_ABC}
# a trailer with framing fields and Host, which count for nothing
{CHUNKED}3\r\nabc\r\n0\r\nHost: d\r\nTransfer-Encoding: gzip\r\nConnection: close\r\n\r\n{GET} -> {OK_ABC}{OK}
# a trailer, whose fields are dropped
{CHUNKED}3\r\nabc\r\n0\r\nContent-Length: 9\r\nx: y\r\n\r\n{GET} -> {OK_ABC}{OK}
# data longer than its size
{CHUNKED}2\r\nabc\r\n0\r\n\r\n -> {BAD}
# no line end after the data
{CHUNKED}3\r\nabc0\r\n\r\n -> {BAD}
# a size that is no number
{CHUNKED}g\r\n -> {BAD}
# no size
{CHUNKED}\r\n -> {BAD}
# a sign
{CHUNKED}-1\r\n -> {BAD}
# a prefix
{CHUNKED}0x{ABC} -> {BAD}
# a blank before the size
{CHUNKED} {ABC} -> {BAD}
# LF alone after the size
{CHUNKED}3\nabc\r\n0\r\n\r\n -> {BAD}
# LF alone after the data
{CHUNKED}3\r\nabc\n0\r\n\r\n -> {BAD}
# a word after the size
{CHUNKED}3 abc\r\nabc\r\n0\r\n\r\n -> {BAD}
# a trailer without a colon
{CHUNKED}0\r\nx\r\n\r\n -> {BAD}
# more than 64 bits of size
{CHUNKED}10000000000000000\r\n -> {BAD}
## What becomes of the connection
# nothing is read after a close
{POST}Connection: close\r\n\r\n{GET} -> {OK_CLOSE}
# a member of a list, in another case
{POST}Connection: x , Close\r\n\r\n{GET} -> {OK_CLOSE}
# in a second field
{POST}Connection: keep-alive\r\nconnection: close\r\n\r\n{GET} -> {OK_CLOSE}
# another word
{POST}Connection: closed\r\n\r\n{GET} -> {OK}{OK}
# nothing is read after a bad message
{LENGTH} x\r\n\r\n{GET} -> {BAD}
# HEAD has the head of its reply alone, and the next message is answered
HEAD /{C}Content-Length: 3\r\n\r\nabc{GET} -> {HEAD_ABC}{OK}
# a bad HEAD
HEAD / HTTP/1.1\r\n\r\n -> {HEAD_BAD}
# a HEAD with too large a body
HEAD /{C}Content-Length: 20971521\r\n\r\n -> {HEAD_TOO_LARGE}
# a head in lower case is another method
head /{C}Content-Length: 3\r\n\r\nabc -> {OK_ABC}
## Clients that wait for 100 Continue
# the client waits for it
{POST}Expect: 100-continue\r\nContent-Length: 3\r\n\r\nabc -> {CONTINUE}{OK_ABC}
# in another case, with chunks
{POST}expect: 100-Continue\r\nTransfer-Encoding: chunked\r\n\r\n{ABC} -> {CONTINUE}{OK_ABC}
# without a body
{POST}Expect: 100-continue\r\n\r\n -> {CONTINUE}{OK}
# not in HTTP/1.0
POST / HTTP/1.0\r\nExpect: 100-continue\r\nContent-Length: 3\r\n\r\nabc -> {OK_ABC_CLOSE}
# not for another word
{POST}Expect: x, 100-continue\r\nContent-Length: 3\r\n\r\nabc -> {OK_ABC}
# not for a length that is refused
{POST}Expect: 100-continue\r\nContent-Length: 20971521\r\n\r\n -> {TOO_LARGE}
# not for a bad length
{POST}Expect: 100-continue\r\nContent-Length: x\r\n\r\n -> {BAD}
# before a bad chunk
{POST}Expect: 100-continue\r\nTransfer-Encoding: chunked\r\n\r\nx\r\n -> {CONTINUE}{BAD}
# before the body ends too early
{POST}Expect: 100-continue\r\nContent-Length: 3\r\n\r\nab -> {CONTINUE}
## Inputs that end too early: there is nothing to answer
# no bytes
{NOTHING} -> {NOTHING}
# in a method
PO -> {NOTHING}
# in a target
POST / -> {NOTHING}
# in a field
{POST}x -> {NOTHING}
# before the empty line
{POST} -> {NOTHING}
# in a body
{LENGTH} 3\r\n\r\nab -> {NOTHING}
# in a chunk
{CHUNKED}3\r\nab -> {NOTHING}
# in the size of a chunk
{CHUNKED}3 -> {NOTHING}
# in a trailer
{CHUNKED}0\r\nx: y\r\n -> {NOTHING}
# in a second message
{GET}GET  -> {OK}
## Lines of requests
# nothing but a line end within a line that began
GET\r\n\r\n -> {BAD}
# a method alone with its space: the target is empty
GET \r\nHost: c\r\n\r\n -> {BAD}
# an empty method
\x20/{C}\r\n -> {BAD}
# a tab after the method
GET\t/{C}\r\n -> {BAD}
# a tab after the target
GET /\tHTTP/1.1\r\nHost: c\r\n\r\n -> {BAD}
# a method with a colon
GE:T /{C}\r\n -> {BAD}
# a method past ASCII
G\xc3\x89T /{C}\r\n -> {BAD}
# a NUL before the method
\x00{GET} -> {BAD}
# a NUL in the target
GET /\x00{C}\r\n -> {BAD}
# a space in the target
GET /a b{C}\r\n -> {BAD}
# no slash in the version
GET / HTTP1.1\r\nHost: c\r\n\r\n -> {BAD}
# a version without its minor number
GET / HTTP/1\r\nHost: c\r\n\r\n -> {BAD}
# a version with two digits behind the point
GET / HTTP/1.10\r\nHost: c\r\n\r\n -> {BAD}
# HTTP/0.9
GET / HTTP/0.9\r\nHost: c\r\n\r\n -> {BAD}
# another protocol
GET / HTTPS/1.1\r\nHost: c\r\n\r\n -> {BAD}
# a CR without LF behind the line
GET / HTTP/1.1\rHost: c\r\n\r\n -> {BAD}
# a CR without LF before the line
\r{GET} -> {BAD}
## Fields of heads
# a blank before the first name
GET / HTTP/1.1\r\n Host: c\r\n\r\n -> {BAD}
# a tab before a name
GET /{C}\tx: y\r\n\r\n -> {BAD}
# a tab before the colon
GET / HTTP/1.1\r\nHost\t: c\r\n\r\n -> {BAD}
# a name with a space
GET /{C}x y: z\r\n\r\n -> {BAD}
# a name past ASCII
GET /{C}\xc3\xa4: z\r\n\r\n -> {BAD}
# a NUL in a name
GET /{C}x\x00: z\r\n\r\n -> {BAD}
# a name in brackets
GET /{C}[x]: z\r\n\r\n -> {BAD}
# a line folded by a tab
GET /{C}x: y\r\n\tz\r\n\r\n -> {BAD}
# a bell in a value
GET /{C}x: \x07\r\n\r\n -> {BAD}
# two CR behind a value
GET / HTTP/1.1\r\nHost: c\r\r\n\r\n -> {BAD}
# a CR alone where the head is to end
GET /{C}\rx -> {BAD}
# three of Host
GET /{C}Host: d\r\nHost: e\r\n\r\n -> {BAD}
# two of Host in different cases
GET / HTTP/1.1\r\nHOST: c\r\nhost: c\r\n\r\n -> {BAD}
# no Host, for HEAD, and what follows isn't read
HEAD / HTTP/1.1\r\nx: y\r\n\r\n{GET} -> {HEAD_BAD}
## Fields that frame a body
# a length with a blank in the number
{LENGTH} 1 0\r\n\r\nabcdefghij -> {BAD}
# a length with an underscore
{LENGTH} 1_0\r\n\r\nabcdefghij -> {BAD}
# a length with a semicolon
{LENGTH} 3;\r\n\r\nabc -> {BAD}
# a length in quotes
{LENGTH} "3"\r\n\r\nabc -> {BAD}
# a length with a comma before it
{LENGTH} ,3\r\n\r\nabc -> {BAD}
# digits past ASCII
{LENGTH} \xd9\xa3\r\n\r\nabc -> {BAD}
# a length with letters of a hexadecimal number
{LENGTH} a\r\n\r\nabcdefghij -> {BAD}
# twice, and one of them is bad
{LENGTH} 3\r\nContent-Length: x\r\n\r\nabc -> {BAD}
# a bad length in HTTP/1.0
POST / HTTP/1.0\r\nContent-Length: +3\r\n\r\nabc -> {BAD}
# both framing fields in HTTP/1.0
POST / HTTP/1.0\r\nContent-Length: 3\r\nTransfer-Encoding: chunked\r\n\r\n{ABC} -> {BAD}
# a coding after chunks
{CODING} chunked, gzip\r\n\r\n{ABC} -> {BAD}
# chunks and identity
{CODING} identity, chunked\r\n\r\n{ABC} -> {BAD}
# two fields with different codings
{CODING} gzip\r\nTransfer-Encoding: chunked\r\n\r\n{ABC} -> {BAD}
# a vertical tab before the coding: a control byte
{CODING} \x0bchunked\r\n\r\n{ABC} -> {BAD}
# a length of 0 beside a coding
{LENGTH} 0\r\nTransfer-Encoding: chunked\r\n\r\n0\r\n\r\n -> {BAD}
# a coding that isn't known beside a length
{CODING} x\r\nContent-Length: 3\r\n\r\nabc -> {BAD}
## Lines of chunks, their data and trailers
# 17 digits, of which 16 are zeros
{CHUNKED}0000000000000000{ABC} -> {BAD}
# 17 digits of a last chunk
{CHUNKED}00000000000000000\r\n\r\n -> {BAD}
# a plus before the size
{CHUNKED}+{ABC} -> {BAD}
# a letter that is no digit behind the size
{CHUNKED}3h\r\nabc\r\n0\r\n\r\n -> {BAD}
# a bad line of a chunk that ends with the input: its last byte is looked at then, however the bytes came
{CHUNKED}12z -> {BAD}
# a colon behind the size
{CHUNKED}3: x\r\nabc\r\n0\r\n\r\n -> {BAD}
# a comma behind the size
{CHUNKED}3,x\r\nabc\r\n0\r\n\r\n -> {BAD}
# two sizes
{CHUNKED}3 {ABC} -> {BAD}
# an extension without a size
{CHUNKED};x=y\r\nabc\r\n0\r\n\r\n -> {BAD}
# LF alone behind an extension
{CHUNKED}3;x\nabc\r\n0\r\n\r\n -> {BAD}
# CR alone in an extension
{CHUNKED}3;x\ry\r\nabc\r\n0\r\n\r\n -> {BAD}
# CR alone behind the size
{CHUNKED}3\rabc\r\n0\r\n\r\n -> {BAD}
# a NUL behind the size
{CHUNKED}3\x00\r\nabc\r\n0\r\n\r\n -> {BAD}
# data that is one byte short
{CHUNKED}4\r\nabc\r\n0\r\n\r\n -> {BAD}
# CR behind the data, and another byte than LF
{CHUNKED}3\r\nabc\rx0\r\n\r\n -> {BAD}
# an empty line between two chunks
{CHUNKED}3\r\nabc\r\n\r\n0\r\n\r\n -> {BAD}
# a second chunk that is bad
{CHUNKED}3\r\nabc\r\nx\r\n -> {BAD}
# a trailer whose name has a blank behind it
{CHUNKED}0\r\nx : y\r\n\r\n -> {BAD}
# a trailer without a name
{CHUNKED}0\r\n: y\r\n\r\n -> {BAD}
# a folded trailer
{CHUNKED}0\r\nx: y\r\n z\r\n\r\n -> {BAD}
# a NUL in a trailer
{CHUNKED}0\r\nx: \x00\r\n\r\n -> {BAD}
# a message where a trailer is to end
{CHUNKED}0\r\n{GET} -> {BAD}
# bad chunks after a good message, and for one that waits for 100 Continue
{GET}{CODING} chunked\r\nExpect: 100-continue\r\n\r\n3\r\nabcd\r\n -> {OK}{CONTINUE}{BAD}
# bad chunks of HEAD
HEAD /{C}Transfer-Encoding: chunked\r\n\r\nz\r\n -> {HEAD_BAD}
## Sizes of chunks that pass the limit: the reply comes as soon as a line says so
# one chunk above the limit, of which nothing has come
{CHUNKED}1400001\r\n -> {TOO_LARGE}
# the largest size that there is
{CHUNKED}FFFFFFFFFFFFFFFF\r\n -> {TOO_LARGE}
# the same with an extension, and more bytes
{CHUNKED}1400001;x=y\r\nabc -> {TOO_LARGE}
# two chunks that are above it together
{CHUNKED}3\r\nabc\r\n13ffffe\r\n -> {TOO_LARGE}
# at the limit: the data is awaited
{CHUNKED}3\r\nabc\r\n13ffffd\r\nab -> {NOTHING}
# the line hasn't ended
{CHUNKED}1400001 -> {NOTHING}
# after 100 Continue
{POST}Expect: 100-continue\r\nTransfer-Encoding: chunked\r\n\r\n1400001\r\n -> {CONTINUE}{TOO_LARGE}
## Each line of the table of statuses, one that isn't in it, and replies of pipelines
POST /200{C}Content-Length: 1\r\n\r\na -> {FOUND}{OF_A}
POST /400{C}Content-Length: 1\r\n\r\na -> HTTP/1.1 400 Bad Request\r\n{OF_A}
POST /403{C}Content-Length: 1\r\n\r\na -> HTTP/1.1 403 Forbidden\r\n{OF_A}
POST /404{C}Content-Length: 1\r\n\r\na -> HTTP/1.1 404 Not Found\r\n{OF_A}
POST /405{C}Content-Length: 1\r\n\r\na -> {OTHER_METHOD}Content-Length: 1\r\n\r\na
POST /413{C}Content-Length: 1\r\n\r\na -> HTTP/1.1 413 Content Too Large\r\n{OF_A}
POST /415{C}Content-Length: 1\r\n\r\na -> {UNSUPPORTED}Content-Length: 1\r\n\r\na
POST /429{C}Content-Length: 1\r\n\r\na -> {BUSY}Content-Length: 1\r\n\r\na
POST /431{C}Content-Length: 1\r\n\r\na -> {FIELDS_TOO_LARGE}{OF_A}
POST /503{C}Content-Length: 1\r\n\r\na -> {UNAVAILABLE}Content-Length: 1\r\n\r\na
POST /418{C}Content-Length: 1\r\n\r\na -> HTTP/1.1 418 \r\n{OF_A}
POST /200{C}Content-Length: 40\r\n\r\n\x0a\x26\x08\x01\x12\x22rejected: 1 invalid, 0 over budget -> {PARTLY_TAKEN}
POST /429{C}Content-Length: 23\r\n\r\n\x12\x15span budget exhausted -> {OVER_BUDGET}
POST /503{C}Content-Length: 15\r\n\r\n\x12\x0dshutting down -> {SHUTTING_DOWN}
POST /503{C}Content-Length: 15\r\n\r\n\x12\x0dcounter limit -> {COUNTER_LIMIT}
# a 503 without a body tells of memory
POST /503{C}\r\n -> {NO_MEMORY}
POST /503 HTTP/1.0\r\n\r\n -> {NO_MEMORY_CLOSE}
HEAD /503{C}\r\n -> {HEAD_NO_MEMORY}
"#;

/// Long ones.
pub const LONG_TALKS: &str = r#"
## Heads at their limits: 64 fields, and 65,536 bytes
GET /{C}{FIELD*63}{NL} -> {OK}
GET /{C}{FIELD*64}{NL} -> {TOO_MANY}
GET /{C}x:{Y*65505}\r\n\r\n -> {OK}
GET /{C}x:{Y*65506}\r\n\r\n -> {TOO_MANY}
# many long lines, and many empty ones before a head
GET /{C}{LONG_FIELD*63}\r\n -> {OK}
{NL*32000}{GET} -> {OK}
## Lines of a chunk of 65,536 bytes, many long ones, and many short chunks
{CHUNKED}0;{Y*65532}\r\n\r\n -> {OK}
{CHUNKED}0;{Y*65533}\r\n\r\n -> {BAD}
{CHUNKED}{LONG_CHUNK_A*5}0\r\n\r\n -> {FOUND}{TYPE}Content-Length: 5\r\n\r\naaaaa
{CHUNKED}{CHUNK_A*10000}0\r\n\r\n -> {FOUND}{TYPE}Content-Length: 10000\r\n\r\n{A*10000}
## Trailers of 65,536 bytes, and of 64 fields
{CHUNKED}0\r\nx:{Y*65530}\r\n\r\n -> {OK}
{CHUNKED}0\r\nx:{Y*65531}\r\n\r\n -> {BAD}
{CHUNKED}0\r\n{FIELD*64}\r\n -> {OK}
{CHUNKED}0\r\n{FIELD*64}z: y\r\n\r\n -> {BAD}
# of 65 fields the last has ended, and the input ends: what is there can't be taken any more
{CHUNKED}0\r\n{FIELD*65} -> {BAD}
GET / HTTP/1.1\r\n{FIELD*65} -> {TOO_MANY}
## Bodies by their length that come in several reads, for which room is made once or twice, with a message behind them
{LENGTH} 131072\r\n\r\n{Y65536*2}{GET} -> {FOUND}{TYPE}Content-Length: 131072\r\n\r\n{Y65536*2}{OK}
{LENGTH} 1048576\r\n\r\n{Y65536*16}{GET} -> {FOUND}{TYPE}Content-Length: 1048576\r\n\r\n{Y65536*16}{OK}
{LENGTH} 1048577\r\n\r\n{Y65536*16}a{GET} -> {FOUND}{TYPE}Content-Length: 1048577\r\n\r\n{Y65536*16}a{OK}
# one that ends too early
{LENGTH} 1048577\r\n\r\n{Y65536*16} -> {NOTHING}
## Bodies of 20,971,520 bytes, and of one byte more
{LENGTH} 20971520\r\n\r\n{Y65536*320} -> {FOUND}{TYPE}Content-Length: 20971520\r\n\r\n{Y65536*320}
{CHUNKED}{CHUNK_65536*320}0\r\n\r\n -> {FOUND}{TYPE}Content-Length: 20971520\r\n\r\n{Y65536*320}
{CHUNKED}{CHUNK_65536*320}1\r\ny\r\n0\r\n\r\n -> {TOO_LARGE}
"#;
