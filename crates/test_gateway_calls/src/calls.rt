//! Each call once, as rows: what is asked of a gateway, and what it answers.
use gateway::calls::{
    client_closed, origin_closed, parse_request, poll, purge, purge_all, purge_key, request_data,
    response_data, response_head, start, stop,
};
use gateway_exchanges::limits::Limits;
use gateway_exchanges::outs::{ClientEnd, OriginAction, Out, Piece, Status};
use gateway_rules::moments::Moment;
use gateway_rules::requests::ParsedRequest;
use gateway_state::state::{Chosen, Gateway};
use gateway_types::bodies::Why;
use rules_ffi_arguments::bad::Bad;
use rules_ffi_arguments::shapes::OptionNumbers;
use std::alloc::{AllocError, Global};

const GET: &[u8] = b"GET /a HTTP/1.1\r\nHost: a\r\n\r\n";

const POST: &[u8] = b"POST /a HTTP/1.1\r\nHost: a\r\nContent-Length: 4\r\n\r\n";

const FRESH: &[u8] = b"HTTP/1.1 200 OK\r\nCache-Control: max-age=60\r\nContent-Length: 4\r\n\r\n";

const UNTIL_CLOSE: &[u8] = b"HTTP/1.1 200 OK\r\nCache-Control: no-store\r\n\r\n";

// A call, at a second, about an exchange by its number.
enum Ask {
    Start(&'static [u8]),
    RequestData(u64, &'static [u8]),
    ResponseHead(u64, &'static [u8]),
    ResponseData(u64, &'static [u8]),
    OriginClosed(u64, Why),
    Poll(u64),
    ClientClosed(u64),
    Purge(&'static [u8]),
    PurgeKey(&'static [u8]),
    PurgeAll,
    Stop,
}

// Its second, the call, and the answer: its status, the origin's action, what the client's side comes to, and how the bytes for it end.
type Row = (u64, Ask, (Status, OriginAction, ClientEnd, &'static [u8]));

const ROWS: &[Row] = &[
    // fetched, and stored as it is answered
    (
        1,
        Ask::Start(GET),
        (
            Status::Done,
            OriginAction::SendRequest,
            ClientEnd::Wait,
            b"",
        ),
    ),
    (
        1,
        Ask::ResponseHead(1, FRESH),
        (
            Status::Done,
            OriginAction::ReceiveBody,
            ClientEnd::Nothing,
            b"",
        ),
    ),
    (
        1,
        Ask::ResponseData(1, b"page"),
        (
            Status::Done,
            OriginAction::Reusable,
            ClientEnd::Nothing,
            b"",
        ),
    ),
    (
        1,
        Ask::Poll(1),
        (Status::Done, OriginAction::Nothing, ClientEnd::End, b"page"),
    ),
    // found
    (
        2,
        Ask::Start(GET),
        (Status::Done, OriginAction::Nothing, ClientEnd::End, b"page"),
    ),
    (
        2,
        Ask::Poll(2),
        (
            Status::NoExchange,
            OriginAction::Nothing,
            ClientEnd::Nothing,
            b"",
        ),
    ),
    // passed, with its body; what it changes is purged
    (
        3,
        Ask::Start(POST),
        (
            Status::Done,
            OriginAction::SendRequest,
            ClientEnd::Wait,
            b"",
        ),
    ),
    (
        3,
        Ask::RequestData(3, b"data"),
        (
            Status::Done,
            OriginAction::SendData,
            ClientEnd::Nothing,
            b"",
        ),
    ),
    (
        3,
        Ask::RequestData(3, b"more"),
        (
            Status::WrongPhase,
            OriginAction::Nothing,
            ClientEnd::Nothing,
            b"",
        ),
    ),
    (
        3,
        Ask::ResponseHead(3, UNTIL_CLOSE),
        (
            Status::Done,
            OriginAction::ReceiveBody,
            ClientEnd::Nothing,
            b"",
        ),
    ),
    (
        3,
        Ask::ResponseData(3, b"done"),
        (Status::Done, OriginAction::Nothing, ClientEnd::Nothing, b""),
    ),
    (
        3,
        Ask::OriginClosed(3, Why::Clean),
        (Status::Done, OriginAction::Nothing, ClientEnd::Nothing, b""),
    ),
    (
        3,
        Ask::Poll(3),
        (
            Status::Done,
            OriginAction::Nothing,
            ClientEnd::End,
            b"4\r\ndone\r\n0\r\n\r\n",
        ),
    ),
    // its client goes
    (
        4,
        Ask::Start(POST),
        (
            Status::Done,
            OriginAction::SendRequest,
            ClientEnd::Wait,
            b"",
        ),
    ),
    (
        4,
        Ask::ClientClosed(4),
        (
            Status::Done,
            OriginAction::CloseOrigin,
            ClientEnd::Nothing,
            b"",
        ),
    ),
    // no answer comes
    (
        5,
        Ask::Start(GET),
        (
            Status::Done,
            OriginAction::SendRequest,
            ClientEnd::Wait,
            b"",
        ),
    ),
    (
        5,
        Ask::OriginClosed(5, Why::Failed),
        (Status::Done, OriginAction::Nothing, ClientEnd::Nothing, b""),
    ),
    (
        5,
        Ask::Poll(5),
        (
            Status::Done,
            OriginAction::Nothing,
            ClientEnd::End,
            b"no-answer\n",
        ),
    ),
    // purges
    (
        6,
        Ask::Purge(b"http://a/a"),
        (Status::Done, OriginAction::Nothing, ClientEnd::Nothing, b""),
    ),
    (
        6,
        Ask::Purge(b"http://a /a"),
        (
            Status::BadArgument,
            OriginAction::Nothing,
            ClientEnd::Nothing,
            b"",
        ),
    ),
    (
        6,
        Ask::PurgeKey(b"key"),
        (Status::Done, OriginAction::Nothing, ClientEnd::Nothing, b""),
    ),
    // everything is purged
    (
        7,
        Ask::Start(GET),
        (
            Status::Done,
            OriginAction::SendRequest,
            ClientEnd::Wait,
            b"",
        ),
    ),
    (
        7,
        Ask::ResponseHead(6, FRESH),
        (
            Status::Done,
            OriginAction::ReceiveBody,
            ClientEnd::Nothing,
            b"",
        ),
    ),
    (
        7,
        Ask::ResponseData(6, b"page"),
        (
            Status::Done,
            OriginAction::Reusable,
            ClientEnd::Nothing,
            b"",
        ),
    ),
    (
        7,
        Ask::Poll(6),
        (Status::Done, OriginAction::Nothing, ClientEnd::End, b"page"),
    ),
    (
        8,
        Ask::PurgeAll,
        (Status::Done, OriginAction::Nothing, ClientEnd::Nothing, b""),
    ),
    (
        9,
        Ask::Start(GET),
        (
            Status::Done,
            OriginAction::SendRequest,
            ClientEnd::Wait,
            b"",
        ),
    ),
    (
        9,
        Ask::ClientClosed(7),
        (Status::Done, OriginAction::Nothing, ClientEnd::Nothing, b""),
    ),
    (
        9,
        Ask::OriginClosed(7, Why::Failed),
        (Status::Done, OriginAction::Nothing, ClientEnd::Nothing, b""),
    ),
    // it is to end
    (
        10,
        Ask::Stop,
        (Status::Done, OriginAction::Nothing, ClientEnd::Nothing, b""),
    ),
    (
        10,
        Ask::Start(GET),
        (
            Status::Done,
            OriginAction::SendRequest,
            ClientEnd::Wait,
            b"",
        ),
    ),
    (
        10,
        Ask::OriginClosed(8, Why::Failed),
        (Status::Done, OriginAction::Nothing, ClientEnd::Nothing, b""),
    ),
    (
        10,
        Ask::Poll(8),
        (
            Status::Done,
            OriginAction::Nothing,
            ClientEnd::Close,
            b"no-answer\n",
        ),
    ),
];

fn numbers() -> OptionNumbers {
    OptionNumbers {
        flags: 2233,
        most_head: 65536,
        most_target: 16384,
        most_lines: 250,
        most_ranges: 8,
        most_heuristic: 86400,
        stale_while_revalidate: 0,
        stale_if_error: 0,
        stale_if_down: 0,
        most_line: 8192,
        reserved: [0, 0],
    }
}

fn gateway(alloc: Global) -> Result<Gateway, Bad> {
    let chosen = Chosen {
        numbers: numbers(),
        words: b"",
        secret: b"0123456789abcdef",
        started: Moment {
            seconds: 0,
            nanoseconds: 0,
        },
        limits: Limits::usual(),
        hash_start: 0,
    };
    Gateway::new(alloc, &chosen)
}

fn call(g: &mut Gateway, second: u64, ask: &Ask) -> Result<Out, Bad> {
    let now = Moment {
        seconds: second,
        nanoseconds: 0,
    };
    match ask {
        Ask::Start(bytes) => match parse_request(g, bytes, 0)? {
            ParsedRequest::More => Err(Bad::Call),
            ParsedRequest::Head(head) => Ok(start(g, now, head, b"")),
        },
        Ask::RequestData(x, bytes) => Ok(request_data(g, now, *x, bytes)),
        Ask::ResponseHead(x, bytes) => Ok(response_head(g, now, *x, bytes)),
        Ask::ResponseData(x, bytes) => Ok(response_data(g, now, *x, bytes)),
        Ask::OriginClosed(x, why) => Ok(origin_closed(g, now, *x, *why)),
        Ask::Poll(x) => Ok(poll(g, now, *x)),
        Ask::ClientClosed(x) => Ok(client_closed(g, now, *x)),
        Ask::Purge(url) => Ok(purge(g, url)),
        Ask::PurgeKey(key) => Ok(purge_key(g, key)),
        Ask::PurgeAll => Ok(purge_all(g, now)),
        Ask::Stop => {
            stop(g);
            Ok(Out::new(g.alloc, Status::Done))
        }
    }
}

fn bytes_of(alloc: Global, out: &Out) -> Result<Vec<u8>, AllocError> {
    let mut bytes = Vec::new(alloc);
    for piece in &out.pieces {
        match piece {
            Piece::Text(text) => bytes.extend_from_slice(text.as_slice())?,
            Piece::Shared(shared) => bytes.extend_from_slice(shared.as_slice())?,
        }
    }
    Ok(bytes)
}

#[test]
fn calls_answer_by_rows(rt: HostRuntime) {
    let mut g = gateway(rt.alloc()).unwrap();
    for (second, ask, (status, origin, client, end)) in ROWS {
        let out = call(&mut g, *second, ask).unwrap();
        assert!(rt; out.status == *status);
        assert!(rt; out.origin == *origin);
        assert!(rt; out.client == *client);
        let bytes = bytes_of(rt.alloc(), &out).unwrap();
        assert!(rt; bytes.as_slice().ends_with(end));
    }
    assert!(rt; g.exchanges() == 0);
}
