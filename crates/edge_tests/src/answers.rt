//! What back ends answer, and what it tells: its status, the seconds to wait or `-`, and its body, or `none` where no
//! whole answer came. What stands behind `=>` is told only once all of it came. They were worked out by hand.

/// Answers of a few hundred bytes.
pub const ANSWERS: &str = r#"
## Answers whose end is told by their head or their chunks
{FOUND}Content-Length: 3\r\n\r\nxyz => 200 - xyz
{CHUNKS}1\r\nx\r\n2\r\nyz\r\n0\r\n\r\n => 200 - xyz
HTTP/1.1 204 No Content\r\n\r\n => 204 - {NOTHING}
HTTP/1.1 302 Found\r\n{EMPTY} => 302 - {NOTHING}
HTTP/1.1 400 Bad Request\r\nContent-Length: 1\r\n\r\nx => 400 - x
HTTP/1.1 429 Too Many Requests\r\nRetry-After: 5\r\n{EMPTY} => 429 5 {NOTHING}
HTTP/1.1 503 Service Unavailable\r\nRetry-After: 1\r\nTransfer-Encoding: chunked\r\n\r\n0\r\n\r\n => 503 1 {NOTHING}
HTTP/1.1 101 Switching Protocols\r\n\r\n => 101 - {NOTHING}
{CONTINUE}{FOUND}Content-Length: 1\r\n\r\nx => 200 - x
HTTP/1.1 103 Early Hints\r\n\r\nHTTP/1.1 102 x\r\n\r\nHTTP/1.1 500 x\r\n{EMPTY} => 500 - {NOTHING}
HTTP/1.1 099 x\r\n{EMPTY} => 99 - {NOTHING}
## Answers with a body, and without
{FOUND}Content-Length: 3\r\n\r\nabc -> 200 - abc
HTTP/1.1 404 Not Found\r\nContent-Length: 3\r\n\r\nabcdef -> 404 - abc
HTTP/1.1 200\r\nTransfer-Encoding: chunked\r\n\r\n1\r\na\r\n2;x\r\nbc\r\n0\r\nt: u\r\n\r\n -> 200 - abc
# lines of a trailer, and its end, by LF alone
{CHUNKS}3\r\nabc\r\n0\r\nt: u\n\n -> 200 - abc
{CHUNKS}3\r\nabc\r\n0\r\n\n -> 200 - abc
# 16 digits, blanks, and an extension with a control byte
{CHUNKS}0000000000000003 \t;\x01\r\nabc\r\n0 \r\n\r\n -> 200 - abc
# what follows the body isn't looked at
{CHUNKS}3\r\nabc\r\n0\r\n\r\nHTTP/1.1 500 x\r\n\r\n -> 200 - abc
# up to the end of the input
{FOUND}\r\nabc -> 200 - abc
HTTP/1.0 200 OK\n\nabc -> 200 - abc
# statuses that have none
HTTP/1.1 204 No Content\r\nContent-Length: 3\r\n\r\n -> 204 - {NOTHING}
HTTP/1.1 304 Not Modified\r\nContent-Length: 3\r\n\r\n -> 304 - {NOTHING}
HTTP/1.1 101 Switching Protocols\r\nContent-Length: 3\r\n\r\n -> 101 - {NOTHING}
# heads that another follows
HTTP/1.1 103 Early Hints\r\nLink: x\r\n\r\n{FOUND}{EMPTY} -> 200 - {NOTHING}
{CONTINUE}HTTP/1.1 103 x\r\nContent-Length: 9\r\n\r\nHTTP/1.1 503 x\r\nContent-Length: 1\r\n\r\na -> 503 - a
\r\n{FOUND}Content-Length: 3\r\n\r\nabc -> 200 - abc
## Waits that are asked for
HTTP/1.1 503 x\r\nRetry-After: 7\r\n{EMPTY} -> 503 7 {NOTHING}
HTTP/1.1 503 x\r\nretry-AFTER: \t0000000007 \r\n{EMPTY} -> 503 7 {NOTHING}
HTTP/1.1 503 x\r\nRetry-After: 9999999999\r\n{EMPTY} -> 503 4294967295 {NOTHING}
HTTP/1.1 503 x\r\nRetry-After: 00000000007\r\n{EMPTY} -> 503 - {NOTHING}
HTTP/1.1 503 x\r\nRetry-After: 7\r\nRetry-After: 7\r\n{EMPTY} -> 503 - {NOTHING}
HTTP/1.1 503 x\r\nRetry-After: Fri, 31 Dec 1999 23:59:59 GMT\r\n{EMPTY} -> 503 - {NOTHING}
HTTP/1.1 503 x\r\nRetry-After:\r\n{EMPTY} -> 503 - {NOTHING}
HTTP/1.1 503 x\r\nRetry-After: -1\r\n{EMPTY} -> 503 - {NOTHING}
## Inputs that tell no whole answer
{NOTHING} -> none
{FOUND} -> none
{CONTINUE} -> none
{FOUND}Content-Length: 3\r\n\r\nab -> none
{CHUNKS}3\r\nabc\r\n -> none
{CHUNKS}3\r\nabcd\r\n0\r\n\r\n -> none
{CHUNKS}x\r\n -> none
# 17 digits
{CHUNKS}00000000000000003\r\nabc\r\n0\r\n\r\n -> none
# LF alone after a size
{CHUNKS}3\nabc\r\n0\r\n\r\n -> none
# CR and another byte after data
{CHUNKS}3\r\nabc\rx0\r\n\r\n -> none
# a trailer without a colon
{CHUNKS}3\r\nabc\r\n0\r\nt\r\n\r\n -> none
# the largest size that there is, and an end in the data
{CHUNKS}FFFFFFFFFFFFFFFF\r\nabc -> none
# an end in the trailer
{CHUNKS}3\r\nabc\r\n0\r\nt: u\r\n -> none
{FOUND}Transfer-Encoding: gzip\r\n\r\n -> none
{FOUND}Transfer-Encoding: chunked\r\n{EMPTY}0\r\n\r\n -> none
{FOUND}Content-Length: 0\r\n{EMPTY} -> none
{FOUND}Content-Length: x\r\n\r\n -> none
HTTP/2.0 200 OK\r\n{EMPTY} -> none
HTTP/1.1 20 OK\r\n{EMPTY} -> none
{FOUND}Content Length: 0\r\n\r\n -> none
SSH-2.0-x\r\n -> none
HTTP/1.1 99\r\n{EMPTY} -> none
HTTP/1.1 99 -> none
{FOUND}Content-Length: 1\r\nContent-Length: 1\r\n\r\nx -> none
{FOUND}Content-Length: 1\r\nTransfer-Encoding: chunked\r\n\r\n0\r\n\r\n -> none
{FOUND}Transfer-Encoding: gzip\r\n\r\nx -> none
HTTP/2 200\r\n\r\n -> none
## Sixteen heads before an answer are skipped
{INTERIM*16}{FOUND}Content-Length: 1\r\n\r\na -> 200 - a
{INTERIM*17}{FOUND}Content-Length: 1\r\n\r\na -> none
"#;

/// Long ones.
pub const LONG_ANSWERS: &str = r#"
## Heads at their limit
{FOUND}Content-Length: 0\r\nX: {Y*65493}\r\n\r\n -> 200 - {NOTHING}
{FOUND}Content-Length: 0\r\nX: {Y*65494}\r\n\r\n -> none
## A body above 4,194,304 bytes counts as empty
{FOUND}\r\n{Y65536*64} -> 200 - {Y65536*64}
{FOUND}\r\n{Y65536*64}y -> 200 - {NOTHING}
"#;
