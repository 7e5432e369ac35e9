//! What the names in talks stand for, a line each: `NAME = TEXT`. A text may use the names before it.

/// Pieces of talks, and whole replies.
pub const NAMES: &str = r#"
## Pieces
NL = \r\n
C = \x20HTTP/1.1\r\nHost: c\r\n
GET = GET /{C}{NL}
POST = POST /{C}
LENGTH = {POST}Content-Length:
CODING = {POST}Transfer-Encoding:
CHUNKED = {CODING} chunked\r\n\r\n
# a chunk of three bytes, and the end
ABC = 3\r\nabc\r\n0\r\n\r\n
## What is large
A = a
Y = y
NOTHING = {Y*0}
Y1000 = {Y*1000}
Y65536 = {Y*65536}
FIELD = x: y\r\n
LONG_FIELD = x: {Y1000}\r\n
CHUNK_A = 1\r\na\r\n
LONG_CHUNK_A = 1;{Y*30000}\r\na\r\n
CHUNK_65536 = 10000\r\n{Y65536}\r\n
## What is posted: a request of one span of one trace, 34 bytes
SPAN = \x0a\x20\x12\x1e\x12\x1c\x0a\x10\x11\x11\x11\x11\x11\x11\x11\x11\x11\x11\x11\x11\x11\x11\x11\x11\x12\x08!!!!!!!!
LINE = POST /v1/traces{C}
TENANT = X-Scope-OrgID: a\r\n
TYPE = Content-Type: application/x-protobuf\r\n
IN_CHUNKS = Transfer-Encoding: chunked\r\n\r\n22\r\n{SPAN}\r\n0\r\n\r\n
BY_LENGTH = Content-Length: 34\r\n\r\n{SPAN}
FOR_A = {TENANT}{TYPE}
CODED = {LINE}{FOR_A}Content-Encoding:
# what stands behind a target
REST = {C}{FOR_A}{BY_LENGTH}
REST_IN_CHUNKS = {C}{FOR_A}{IN_CHUNKS}
POST_A = {LINE}{FOR_A}{BY_LENGTH}
## What is written
CLOSE = Connection: close\r\n
OF_A = {TYPE}Content-Length: 1\r\n\r\na
FOUND = HTTP/1.1 200 OK\r\n
OK = {FOUND}{TYPE}Content-Length: 0\r\n\r\n
OK_CLOSE = {FOUND}{TYPE}{CLOSE}Content-Length: 0\r\n\r\n
HEAD_ABC = {FOUND}{TYPE}Content-Length: 3\r\n\r\n
OK_ABC = {HEAD_ABC}abc
OK_ABC_CLOSE = {FOUND}{TYPE}{CLOSE}Content-Length: 3\r\n\r\nabc
OK_DIGITS = {FOUND}{TYPE}Content-Length: 20\r\n\r\n01234567890123456789
OK_LINES = {FOUND}{TYPE}Content-Length: 20\r\n\r\n0\r\n\r\n56789\r\n\r\n345678
PARTLY_TAKEN = {FOUND}{TYPE}Content-Length: 40\r\n\r\n\x0a\x26\x08\x01\x12\x22rejected: 1 invalid, 0 over budget
CONTINUE = HTTP/1.1 100 Continue\r\n\r\n
HEAD_BAD = HTTP/1.1 400 Bad Request\r\n{TYPE}{CLOSE}Content-Length: 13\r\n\r\n
BAD = {HEAD_BAD}\x12\x0bbad request
UNKNOWN_TENANT = HTTP/1.1 403 Forbidden\r\n{TYPE}Content-Length: 16\r\n\r\n\x12\x0eunknown tenant
NO_SUCH_PATH = HTTP/1.1 404 Not Found\r\n{TYPE}Content-Length: 14\r\n\r\n\x12\x0cno such path
OTHER_METHOD = HTTP/1.1 405 Method Not Allowed\r\n{TYPE}Allow: POST\r\n
HEAD_NOT_ALLOWED = {OTHER_METHOD}Content-Length: 20\r\n\r\n
NOT_ALLOWED = {HEAD_NOT_ALLOWED}\x12\x12method not allowed
HEAD_TOO_LARGE = HTTP/1.1 413 Content Too Large\r\n{TYPE}{CLOSE}Content-Length: 16\r\n\r\n
TOO_LARGE = {HEAD_TOO_LARGE}\x12\x0ebody too large
UNSUPPORTED = HTTP/1.1 415 Unsupported Media Type\r\n{TYPE}
OTHER_TYPE = {UNSUPPORTED}Content-Length: 26\r\n\r\n\x12\x18unsupported content type
OTHER_ENCODING = {UNSUPPORTED}Content-Length: 30\r\n\r\n\x12\x1cunsupported content encoding
EACH_REFUSED = {NO_SUCH_PATH}{NOT_ALLOWED}{UNKNOWN_TENANT}{OTHER_TYPE}{OTHER_ENCODING}
BUSY = HTTP/1.1 429 Too Many Requests\r\n{TYPE}Retry-After: 1\r\n
OVER_BUDGET = {BUSY}Content-Length: 23\r\n\r\n\x12\x15span budget exhausted
FIELDS_TOO_LARGE = HTTP/1.1 431 Request Header Fields Too Large\r\n
TOO_MANY = {FIELDS_TOO_LARGE}{TYPE}{CLOSE}Content-Length: 24\r\n\r\n\x12\x16too many header fields
UNAVAILABLE = HTTP/1.1 503 Service Unavailable\r\n{TYPE}
SHUTTING_DOWN = {UNAVAILABLE}Content-Length: 15\r\n\r\n\x12\x0dshutting down
COUNTER_LIMIT = {UNAVAILABLE}Content-Length: 15\r\n\r\n\x12\x0dcounter limit
HEAD_NO_MEMORY = {UNAVAILABLE}Content-Length: 15\r\n\r\n
NO_MEMORY = {HEAD_NO_MEMORY}\x12\x0dout of memory
NO_MEMORY_CLOSE = {UNAVAILABLE}{CLOSE}Content-Length: 15\r\n\r\n\x12\x0dout of memory
## What is written where refusals are JSON
JSON = Content-Type: application/json\r\n
BAD_REQUEST = HTTP/1.1 400 Bad Request\r\n{JSON}{CLOSE}
JSON_HEAD_BAD = {BAD_REQUEST}Content-Length: 23\r\n\r\n
JSON_BAD = {JSON_HEAD_BAD}\x7b"error":"bad request"\x7d
TOO_LONG = HTTP/1.1 413 Content Too Large\r\n{JSON}{CLOSE}
JSON_HEAD_TOO_LARGE = {TOO_LONG}Content-Length: 26\r\n\r\n
JSON_TOO_LARGE = {JSON_HEAD_TOO_LARGE}\x7b"error":"body too large"\x7d
JSON_TOO_MANY = {FIELDS_TOO_LARGE}{JSON}{CLOSE}Content-Length: 34\r\n\r\n\x7b"error":"too many header fields"\x7d
LACKING = HTTP/1.1 503 Service Unavailable\r\n{JSON}
JSON_HEAD_NO_MEMORY = {LACKING}Content-Length: 25\r\n\r\n
JSON_HEAD_NO_MEMORY_CLOSE = {LACKING}{CLOSE}Content-Length: 25\r\n\r\n
NO_MEMORY_TOLD = \x7b"error":"out of memory"\x7d
## What back ends answer
CHUNKS = {FOUND}Transfer-Encoding: chunked\r\n\r\n
INTERIM = HTTP/1.1 102 Processing\r\n\r\n
EMPTY = Content-Length: 0\r\n\r\n
"#;
