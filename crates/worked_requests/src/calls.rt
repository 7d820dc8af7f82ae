//! Worked sessions, and the calls on the book that their requests make.

use auth_events::{BookReply, Call, Entry, Gift, Loss};
use spaces::Target;

/// One request, whose server asks for Basic credentials; the user gives them.
pub(crate) const SESSION: &str = "authfetch 1
request GET main http://intra.example/
link HTTP/1.1%20401%20Unauthorized%0D%0AWWW-Authenticate:%20Basic%20realm=\"x\"%0D%0AContent-Length:%200%0D%0A%0D%0A
link HTTP/1.1%20200%20OK%0D%0AContent-Length:%202%0D%0A%0D%0Aok
answer main server http://intra.example/ basic x give Aladdin open%20sesame
";

/// The calls on the book of that session where nothing fails, and their replies.
pub(crate) const CALLS: [(Call, BookReply); 6] = [
    (Call::Begin, BookReply::Begun),
    (
        Call::Preempt {
            target: Target::Server,
        },
        BookReply::Nothing,
    ),
    (
        Call::Select { space: 1, terms: 0 },
        BookReply::Lead {
            prompt: 1,
            ordinal: 1,
        },
    ),
    (
        Call::Answer {
            prompt: 1,
            text: 1,
            terms: 0,
        },
        BookReply::Given {
            gift: Gift {
                space: 1,
                ordinal: 1,
            },
            evicted: 0,
        },
    ),
    (
        Call::Note {
            gift: Gift {
                space: 1,
                ordinal: 1,
            },
        },
        BookReply::Noted,
    ),
    (Call::End, BookReply::Ended),
];

/// One request over a proxy: proxy and server ask for Basic credentials in turn, and the user gives
/// them.
pub(crate) const PROXIED: &str = "authfetch 1
request GET main http://a.example/x via http://p.example:3128/
link HTTP/1.1%20407%20Proxy%20Authentication%20Required%0D%0AProxy-Authenticate:%20Basic%20realm=\"r\"%0D%0AContent-Length:%200%0D%0A%0D%0A
link HTTP/1.1%20401%20Unauthorized%0D%0AWWW-Authenticate:%20Basic%20realm=\"r\"%0D%0AContent-Length:%200%0D%0A%0D%0A
link HTTP/1.1%20200%20OK%0D%0AContent-Length:%202%0D%0A%0D%0Aok
answer main proxy http://p.example:3128/ basic r give pu pp
answer main server http://a.example/ basic r give su sp
";

/// The calls on the book of that session where nothing fails, and their replies.
pub(crate) const PROXIED_CALLS: [(Call, BookReply); 10] = [
    (Call::Begin, BookReply::Begun),
    (
        Call::Preempt {
            target: Target::Proxy,
        },
        BookReply::Nothing,
    ),
    (
        Call::Preempt {
            target: Target::Server,
        },
        BookReply::Nothing,
    ),
    (
        Call::Select { space: 1, terms: 0 },
        BookReply::Lead {
            prompt: 1,
            ordinal: 1,
        },
    ),
    (
        Call::Answer {
            prompt: 1,
            text: 1,
            terms: 0,
        },
        BookReply::Given {
            gift: Gift {
                space: 1,
                ordinal: 1,
            },
            evicted: 0,
        },
    ),
    (
        Call::Select { space: 2, terms: 0 },
        BookReply::Lead {
            prompt: 2,
            ordinal: 1,
        },
    ),
    (
        Call::Answer {
            prompt: 2,
            text: 2,
            terms: 0,
        },
        BookReply::Given {
            gift: Gift {
                space: 2,
                ordinal: 1,
            },
            evicted: 0,
        },
    ),
    (
        Call::Note {
            gift: Gift {
                space: 1,
                ordinal: 1,
            },
        },
        BookReply::Noted,
    ),
    (
        Call::Note {
            gift: Gift {
                space: 2,
                ordinal: 1,
            },
        },
        BookReply::Noted,
    ),
    (Call::End, BookReply::Ended),
];

/// Two requests of one space with two answers.
pub(crate) const PROMPTED: &str = "authfetch 1
request GET main http://intra.example/
link HTTP/1.1%20401%20Unauthorized%0D%0AWWW-Authenticate:%20Basic%20realm=\"x\"%0D%0AContent-Length:%200%0D%0A%0D%0A
request GET main http://intra.example/
link HTTP/1.1%20401%20Unauthorized%0D%0AWWW-Authenticate:%20Basic%20realm=\"x\"%0D%0AContent-Length:%200%0D%0A%0D%0A
link HTTP/1.1%20200%20OK%0D%0AContent-Length:%202%0D%0A%0D%0Aok
answer main server http://intra.example/ basic x give first one
answer main server http://intra.example/ basic x give second two
";

/// The only giving of that session's space.
const FIRST: Gift = Gift {
    space: 1,
    ordinal: 1,
};

/// What the book tells of that session where the user can't be asked the first time.
pub(crate) const PROMPTED_ENTRIES: [Entry; 11] = [
    Entry {
        caller: 1,
        request: 1,
        call: Call::Begin,
        reply: BookReply::Begun,
    },
    Entry {
        caller: 1,
        request: 1,
        call: Call::Preempt {
            target: Target::Server,
        },
        reply: BookReply::Nothing,
    },
    Entry {
        caller: 1,
        request: 1,
        call: Call::Select { space: 1, terms: 0 },
        reply: BookReply::Lead {
            prompt: 1,
            ordinal: 1,
        },
    },
    Entry {
        caller: 1,
        request: 1,
        call: Call::Lose {
            prompt: 1,
            loss: Loss::Fault(1),
        },
        reply: BookReply::Lost {
            loss: Loss::Fault(1),
        },
    },
    Entry {
        caller: 1,
        request: 1,
        call: Call::End,
        reply: BookReply::Ended,
    },
    Entry {
        caller: 1,
        request: 2,
        call: Call::Begin,
        reply: BookReply::Begun,
    },
    Entry {
        caller: 1,
        request: 2,
        call: Call::Preempt {
            target: Target::Server,
        },
        reply: BookReply::Nothing,
    },
    Entry {
        caller: 1,
        request: 2,
        call: Call::Select { space: 1, terms: 0 },
        reply: BookReply::Lead {
            prompt: 2,
            ordinal: 2,
        },
    },
    Entry {
        caller: 1,
        request: 2,
        call: Call::Answer {
            prompt: 2,
            text: 1,
            terms: 0,
        },
        reply: BookReply::Given {
            gift: FIRST,
            evicted: 0,
        },
    },
    Entry {
        caller: 1,
        request: 2,
        call: Call::Note { gift: FIRST },
        reply: BookReply::Noted,
    },
    Entry {
        caller: 1,
        request: 2,
        call: Call::End,
        reply: BookReply::Ended,
    },
];

/// The second request's head with the second answer.
pub(crate) const PROMPTED_HEAD: &str = "GET / HTTP/1.1\r
Host: intra.example\r
Authorization: Basic c2Vjb25kOnR3bw==\r
Connection: close\r
\r
";
