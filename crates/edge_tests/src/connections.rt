//! Connections to a front with the tenants a and b, which looks at no body: what is read, and what is to be written for
//! it. They were worked out by hand, from docs/HTTP.md.

/// Connections of one message or several.
pub const CONNECTIONS: &str = r#"
## Posts that are taken
# two posts in chunks
{LINE}{FOR_A}{IN_CHUNKS}{LINE}{FOR_A}{IN_CHUNKS} -> {OK}{OK}
# whole URIs as targets
POST http://h/v1/traces{REST_IN_CHUNKS}POST http://h/v1/traces{REST_IN_CHUNKS} -> {OK}{OK}
# another scheme, in another case, with a port and a query
POST HTTPS://h:4318/v1/traces?a=/b{REST} -> {OK}
# a query
POST /v1/traces?http://h/{REST} -> {OK}
# an empty query, and an empty host
POST /v1/traces?{REST}POST http:///v1/traces{REST} -> {OK}{OK}
# the field's name in another case, blanks around the tenant's
{LINE}x-SCOPE-orgid: \t b \t\r\n{TYPE}{BY_LENGTH} -> {OK}
# the tenant's field last
{LINE}{TYPE}{TENANT}{BY_LENGTH} -> {OK}
# a type in another case, with blanks and a parameter
{LINE}{TENANT}content-type: APPLICATION/x-protobuf \t; charset=utf-8; q\r\n{BY_LENGTH} -> {OK}
# a parameter without a name
{LINE}{TENANT}Content-Type: application/x-protobuf;\r\n{BY_LENGTH} -> {OK}
# no coding, said once and twice
{CODED} Identity\r\n{BY_LENGTH}{CODED} identity\r\ncontent-encoding:  IDENTITY \r\n{BY_LENGTH} -> {OK}{OK}
# fields that have no say
{LINE}{FOR_A}Accept-Encoding: gzip\r\nX-Scope-OrgIDs: b\r\nAccept: a\r\n{BY_LENGTH} -> {OK}
# no spans
{LINE}{FOR_A}\r\n -> {OK}
# HTTP/1.0 without a Host
POST /v1/traces HTTP/1.0\r\n{FOR_A}{BY_LENGTH} -> {OK_CLOSE}
# a sender that waits to be told to go on
{LINE}{FOR_A}Expect: 100-continue\r\n{IN_CHUNKS} -> {CONTINUE}{OK}
## Connections of several messages
# no Host: one reply, and nothing after it
POST /v1/traces HTTP/1.1\r\n{FOR_A}{IN_CHUNKS}POST /v1/traces HTTP/1.1\r\n{FOR_A}{IN_CHUNKS} -> {BAD}
# each refusal leaves the connection as it is
POST /{C}\r\nGET /v1/traces{C}\r\n{LINE}\r\n{LINE}{TENANT}\r\n{CODED} gzip\r\n\r\n{POST_A} -> {EACH_REFUSED}{OK}
# a connection that is to close, and nothing after it
{LINE}{FOR_A}Connection: close\r\n{BY_LENGTH}{POST_A} -> {OK_CLOSE}
# an input that ends inside a body
{POST_A}{LINE}{FOR_A}Content-Length: 34\r\n\r\n\n -> {OK}
## Targets that aren't the one of traces
# no path
POST /{REST} -> {NO_SUCH_PATH}
# a slash behind it
POST /v1/traces/{REST} -> {NO_SUCH_PATH}
# another case
POST /V1/traces{REST} -> {NO_SUCH_PATH}
# less than it
POST /v1/trace{REST} -> {NO_SUCH_PATH}
# more than it
POST /v1/tracesx{REST} -> {NO_SUCH_PATH}
# another signal
POST /v1/metrics{REST} -> {NO_SUCH_PATH}
# two slashes before it
POST //v1/traces{REST} -> {NO_SUCH_PATH}
# a byte that is encoded
POST /v1%2Ftraces{REST} -> {NO_SUCH_PATH}
# no path at all
POST *{REST} -> {NO_SUCH_PATH}
# a URI without a path
POST http://h{REST} -> {NO_SUCH_PATH}
# a URI whose query has the path
POST http://h?/v1/traces{REST} -> {NO_SUCH_PATH}
# a URI with another path
POST https://h/v1/traces/{REST} -> {NO_SUCH_PATH}
# another scheme
POST ftp://h/v1/traces{REST} -> {NO_SUCH_PATH}
# a scheme with one slash
POST http:/v1/traces{REST} -> {NO_SUCH_PATH}
# a part of a scheme
POST http{REST} -> {NO_SUCH_PATH}
# a host without a scheme
POST h/v1/traces{REST} -> {NO_SUCH_PATH}
## Methods other than POST
GET /v1/traces{REST} -> {NOT_ALLOWED}
PUT /v1/traces{REST} -> {NOT_ALLOWED}
OPTIONS /v1/traces{REST} -> {NOT_ALLOWED}
DELETE /v1/traces{REST} -> {NOT_ALLOWED}
post /v1/traces{REST} -> {NOT_ALLOWED}
POSTS /v1/traces{REST} -> {NOT_ALLOWED}
BREW /v1/traces{REST} -> {NOT_ALLOWED}
# the reply to HEAD has no body, and the next request is answered
HEAD /v1/traces{REST_IN_CHUNKS}HEAD /v1/traces{REST_IN_CHUNKS} -> {HEAD_NOT_ALLOWED}{HEAD_NOT_ALLOWED}
## Fields that name no tenant
# none
{LINE}{TYPE}{IN_CHUNKS}{LINE}{TYPE}{IN_CHUNKS} -> {UNKNOWN_TENANT}{UNKNOWN_TENANT}
# twice
{LINE}{TENANT}{FOR_A}{IN_CHUNKS}{LINE}{TENANT}{FOR_A}{IN_CHUNKS} -> {UNKNOWN_TENANT}{UNKNOWN_TENANT}
# twice, in another case, and the second isn't known
{LINE}{TENANT}x-scope-orgid: c\r\n{TYPE}{BY_LENGTH} -> {UNKNOWN_TENANT}
# three times
{LINE}{TENANT}{FOR_A}{TENANT}{BY_LENGTH} -> {UNKNOWN_TENANT}
# no tenant of that name
{LINE}X-Scope-OrgID: c\r\n{TYPE}{BY_LENGTH} -> {UNKNOWN_TENANT}
# the name in another case
{LINE}X-Scope-OrgID: A\r\n{TYPE}{BY_LENGTH} -> {UNKNOWN_TENANT}
# no name
{LINE}X-Scope-OrgID: \r\n{TYPE}{BY_LENGTH} -> {UNKNOWN_TENANT}
# more than the name
{LINE}X-Scope-OrgID: ab\r\n{TYPE}{BY_LENGTH} -> {UNKNOWN_TENANT}
# two names
{LINE}X-Scope-OrgID: a, a\r\n{TYPE}{BY_LENGTH} -> {UNKNOWN_TENANT}
# a name in quotes
{LINE}X-Scope-OrgID: "a"\r\n{TYPE}{BY_LENGTH} -> {UNKNOWN_TENANT}
# bytes that are no text
{LINE}X-Scope-OrgID: \xff\r\n{TYPE}{BY_LENGTH} -> {UNKNOWN_TENANT}
## Contents of other types
# none
{LINE}{TENANT}{BY_LENGTH} -> {OTHER_TYPE}
# twice
{LINE}{FOR_A}{TYPE}{BY_LENGTH} -> {OTHER_TYPE}
# another one beside it
{LINE}{FOR_A}Content-Type: application/json\r\n{BY_LENGTH} -> {OTHER_TYPE}
# JSON
{LINE}{TENANT}Content-Type: application/json\r\n{BY_LENGTH} -> {OTHER_TYPE}
# without its x
{LINE}{TENANT}Content-Type: application/protobuf\r\n{BY_LENGTH} -> {OTHER_TYPE}
# more than it
{LINE}{TENANT}Content-Type: application/x-protobuf2\r\n{BY_LENGTH} -> {OTHER_TYPE}
# a parameter before it
{LINE}{TENANT}Content-Type: ; application/x-protobuf\r\n{BY_LENGTH} -> {OTHER_TYPE}
# a list
{LINE}{TENANT}Content-Type: application/x-protobuf, application/json\r\n{BY_LENGTH} -> {OTHER_TYPE}
# blanks in it
{LINE}{TENANT}Content-Type: application / x-protobuf\r\n{BY_LENGTH} -> {OTHER_TYPE}
# nothing
{LINE}{TENANT}Content-Type: \r\n{BY_LENGTH} -> {OTHER_TYPE}
## Contents that are compressed, or may be
# gzip
{CODED} gzip\r\n{IN_CHUNKS}{CODED} gzip\r\n{IN_CHUNKS} -> {OTHER_ENCODING}{OTHER_ENCODING}
# gzip among others
{CODED} identity, gzip\r\n{IN_CHUNKS}{CODED} identity, gzip\r\n{IN_CHUNKS} -> {OTHER_ENCODING}{OTHER_ENCODING}
# a list of none
{CODED} identity, identity\r\n{IN_CHUNKS}{CODED} identity, identity\r\n{IN_CHUNKS} -> {OTHER_ENCODING}{OTHER_ENCODING}
# nothing
{CODED} \r\n{IN_CHUNKS}{CODED} \r\n{IN_CHUNKS} -> {OTHER_ENCODING}{OTHER_ENCODING}
# more than none
{CODED} identity2\r\n{IN_CHUNKS}{CODED} identity2\r\n{IN_CHUNKS} -> {OTHER_ENCODING}{OTHER_ENCODING}
# none, and then gzip
{CODED} identity\r\nContent-Encoding: gzip\r\n{BY_LENGTH} -> {OTHER_ENCODING}
# gzip, and then none
{CODED} gzip\r\nContent-Encoding: identity\r\n{BY_LENGTH} -> {OTHER_ENCODING}
## Messages that break several rules, of which the first is told
# path, method, tenant, type, encoding and body
GET /{C}Content-Encoding: gzip\r\nContent-Length: 1\r\n\r\n\n -> {NO_SUCH_PATH}
# all but the path
GET /v1/traces{C}Content-Encoding: gzip\r\nContent-Length: 1\r\n\r\n\n -> {NOT_ALLOWED}
# tenant, type, encoding and body
{LINE}Content-Encoding: gzip\r\nContent-Length: 1\r\n\r\n\n -> {UNKNOWN_TENANT}
# type, encoding and body
{LINE}{TENANT}Content-Encoding: gzip\r\nContent-Type: application/json\r\nContent-Length: 1\r\n\r\n\n -> {OTHER_TYPE}
# encoding and body
{CODED} gzip\r\nContent-Length: 1\r\n\r\n\n -> {OTHER_ENCODING}
# path and tenant
POST /x{C}{TYPE}{BY_LENGTH} -> {NO_SUCH_PATH}
# path and encoding
POST /x{C}{FOR_A}Content-Encoding: gzip\r\n{BY_LENGTH} -> {NO_SUCH_PATH}
# method and type
PUT /v1/traces{C}{TENANT}Content-Type: application/json\r\n{BY_LENGTH} -> {NOT_ALLOWED}
# tenant and encoding
{LINE}{TYPE}Content-Encoding: gzip\r\n{BY_LENGTH} -> {UNKNOWN_TENANT}
# the framing, before all others
GET / HTTP/1.1\r\nContent-Encoding: gzip\r\n\r\n -> {BAD}
## Heads with many fields, and a long body
# the tenant is found behind 60 fields
{LINE}{FIELD*60}{TYPE}Content-Length: 0\r\nX-Scope-OrgID: b\r\n\r\n -> {OK}
{LINE}{FIELD*61}{TYPE}Content-Length: 0\r\nX-Scope-OrgID: b\r\n\r\n -> {TOO_MANY}
# it is refused, whatever its head says
GET /{C}Content-Length: 20971521\r\n\r\nx -> {TOO_LARGE}
"#;
