//! Pieces of responses, how far they have come after each piece, and what they give at the end.
use crate::responses::pieces::Want;

// The pieces, the answers after each, and what the joined pieces give.
pub(crate) const ROWS: &[(&[&str], &str, Want)] = &[
    (&[], "", Want::Begun),
    (&[""], "Head ", Want::Begun),
    (
        &["HTTP/1.1 200 OK\r\n\r\n", "abc"],
        "Body(0) Body(3) ",
        Want::Whole(200, 0, "abc"),
    ),
    (
        &["HTTP/1.1 200 OK\r\n", "Server: nijpdra\r\n\r\n"],
        "Head Body(0) ",
        Want::Whole(200, 1, ""),
    ),
    (
        &["HTTP/1.1 200 OK\r\nServer: nijpdra\r\n"],
        "Head ",
        Want::Begun,
    ),
    (
        &["HTP/1.1 200 OK\r\nServer: nijpdra\r\n\r\n", "abc"],
        "BadHead BadHead ",
        Want::BadHead,
    ),
    (&["HTP/1.1 200 OK\r\n"], "BadHead ", Want::BadHead),
    (
        &["H", "TP/1.1 200 OK\r\n", "\r\n"],
        "Head Head BadHead ",
        Want::BadHead,
    ),
    (
        &["HTTP/1.1 200 OK\r\nContent-Length: 6\r\n\r\nabc", "def"],
        "Body(3) Done(6) ",
        Want::Whole(200, 1, "abcdef"),
    ),
    (
        &["HTTP/1.1 200 OK\r\nContent-Length: 6\r\n\r\nabc"],
        "Body(3) ",
        Want::Short(200, 3),
    ),
    (
        &["HTTP/1.1 200 OK\r\nContent-Length: 6\r\n\r\nabc", "de"],
        "Body(3) Body(5) ",
        Want::Short(200, 5),
    ),
    (
        &["HTTP/1.1 200 OK\r\nContent-Length: 2\r\n\r\nabc", "d"],
        "Done(2) Done(2) ",
        Want::Whole(200, 1, "ab"),
    ),
    (
        &[
            "HTTP/1.1 200 OK\r\nContent-Length: 5\r\n\r",
            "\na",
            "b",
            "cd",
            "ef",
        ],
        "Head Body(1) Body(2) Body(4) Done(5) ",
        Want::Whole(200, 1, "abcde"),
    ),
    (
        &[
            "HTTP/1.1 200 OK\r\nTransfer-Encoding: chunked\r\n\r\nru",
            "st\r\n",
        ],
        "Body(2) Body(6) ",
        Want::Whole(200, 1, "rust\r\n"),
    ),
    (
        &["HTTP/1.1 200 OK\r\nContent-Length: 0\r\n\r\n", "rust"],
        "Done(0) Done(0) ",
        Want::Whole(200, 1, ""),
    ),
    (
        &["HTTP/1.1 304 Not Modified\r\nCache-Control: public, max-age=10\r\n\r\n"],
        "Done(0) ",
        Want::Whole(304, 1, ""),
    ),
    (
        &[
            "HTTP/1.1 204 No Content\r\nTransfer-Encoding: chunked\r\n\r\n",
            "4\r\nrust\r\n0\r\n\r\n",
        ],
        "Done(0) Done(0) ",
        Want::Whole(204, 1, ""),
    ),
    (
        &[
            "HTTP/1.1 204 No Content\r\nContent-Length: 4\r\n\r\n",
            "rust",
        ],
        "Done(0) Done(0) ",
        Want::Whole(204, 1, ""),
    ),
    (
        &["\r\n\n", "\r\nHTTP/1.1 200 OK\n\n", "a"],
        "Head Body(0) Body(1) ",
        Want::Whole(200, 0, "a"),
    ),
    (&["\r\rHTTP/1.1 200 OK\n\n"], "BadHead ", Want::BadHead),
    (&["HTTP/1.1 099 OK\r\n"], "Head ", Want::Begun),
    (
        &["HTTP/1.1 099 OK\r\n", "\r\n"],
        "Head BadHead ",
        Want::BadHead,
    ),
    (
        &["HTTP/1.1 200 OK\r\nA : b\r\n", "C: d\r\n e\r\n", "\r\nf"],
        "Head Head Body(1) ",
        Want::Whole(200, 2, "f"),
    ),
    (
        &["HTTP/1.1 404 Not Found\r\nA : b\r\n\r\nc"],
        "Body(1) ",
        Want::Whole(404, 1, "c"),
    ),
    (&["HTTP/2.0 200 OK\r\nA : b\r\n"], "BadHead ", Want::BadHead),
    (
        &["HTTP/1.1 200 OK\r\nContent-Length: +2\r\ncontent-length: 1\r\n\r\nab"],
        "Done(2) ",
        Want::Whole(200, 2, "ab"),
    ),
    (
        &["HTTP/1.1 200 OK\r\nContent-Length: 1 2\r\n\r\nab"],
        "Body(2) ",
        Want::Whole(200, 1, "ab"),
    ),
    (
        &["HTTP/1.1 200 OK\r\n\r\n", "a"],
        "Body(0) Body(1) ",
        Want::Whole(200, 0, "a"),
    ),
];
