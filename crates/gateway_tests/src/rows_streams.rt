//! The worked rows of streams: which requests their bytes are, where they end, and what is queued then. The functions
//! do nothing.
ghost use Rattle.std.specs.Prelude.{◌≡◌, ℕ, List, ◌∷◌, [], ◌++◌, map, length, replicate, codes, true, None};
ghost use Rattle.std.specs.List.{flat_map, range_with_len};
ghost use Rattle.http_pieces.specs.Requests.{Requests, Open, RefusedBy, Closed};
ghost use Rattle.http_pieces.specs.declared.refusal.Refusal.{Refusal};
ghost use Rattle.connect_codec.specs.Reply.{bare_reply, error_reply, success_reply};
ghost use Rattle.connect_codec.specs.declared.verdict.Verdict.{Verdict};
ghost use Rattle.error_document.specs.declared.code.Code.{Code};
ghost use Rattle.gateway_model.specs.Arrival.{Arrival};
ghost use Rattle.gateway_model.specs.Reply.{reply_of};
ghost use Rattle.gateway_model.specs.Occurrence.{Opening, HangUp};
ghost use Rattle.gateway_model.specs.Past.{past_of};
ghost use Rattle.gateway_theory.specs.Replies.{replies};
ghost use Rattle.gateway_tests.specs.Rows.{ping, request_for, get_request, ping_adding, ping_of_length, ping_closing, ping_old, ping_hostless, ping_filled, ping_crowded, head_text, text_of, arrives, comes, refuses, answers, error, document, bytes_queued};

use http_pieces::laws::requests_law;

/// A request for Ping, also behind empty lines, and two in one stream.
fn first_request()
    ensures text { text_of (request_for ping.path 0)
        ≡ codes "POST /acme.v1.Ping/Ping HTTP/1.1\r\nHost: g\r\nContent-Type: application/json\r\nContent-Length: 2\r\n\r\n{}" }
    ensures bytes { length (text_of (request_for ping.path 0)) ≡ 98 }
    ensures request { Requests 0 (text_of (request_for ping.path 0)) (request_for ping.path 0 ∷ []) (Open []) }
    ensures behind_lines { Requests 0 (codes "\r\n\r\n" ++ text_of (request_for ping.path 0)) (request_for ping.path 0 ∷ []) (Open []) }
    ensures pair { Requests 0 (text_of (request_for ping.path 0) ++ text_of (request_for ping.path 1)) (request_for ping.path 0 ∷ request_for ping.path 1 ∷ []) (Open []) }
{}

/// A request that asks for the close: its reply is the last, and what follows it is ignored.
fn closing_request()
    ensures text { text_of ping_closing
        ≡ codes "POST /acme.v1.Ping/Ping HTTP/1.1\r\nHost: g\r\nConnection: close\r\nContent-Type: application/json\r\nContent-Length: 2\r\n\r\n{}" }
    ensures requests { (more : List ℕ) → Requests 0 (text_of ping_closing ++ more) (ping_closing ∷ []) Closed }
    ensures arrival { arrives ping_closing ≡ Arrival.Asks ping None None }
    ensures replies { replies 0 (past_of (Opening ∷ comes ping_closing ∷ answers 0 0 (codes "{\"ok\":true}") ∷ []))
        ≡ reply_of (success_reply (codes "{\"pong\":{\"ok\":true}}") true) true ∷ [] }
    ensures reply { success_reply (codes "{\"pong\":{\"ok\":true}}") true
        ≡ codes "HTTP/1.1 200 OK\r\nContent-Type: application/json\r\nContent-Length: 20\r\nConnection: close\r\n\r\n{\"pong\":{\"ok\":true}}" }
    ensures bytes { bytes_queued (Opening ∷ comes ping_closing ∷ answers 0 0 (codes "{\"ok\":true}") ∷ []) ≡ 110 }
{
    requests_law();
}

/// A request of HTTP/1.0, which needs no `Host`: the same.
fn old_request()
    ensures text { text_of ping_old
        ≡ codes "POST /acme.v1.Ping/Ping HTTP/1.0\r\nContent-Type: application/json\r\nContent-Length: 2\r\n\r\n{}" }
    ensures requests { (more : List ℕ) → Requests 0 (text_of ping_old ++ more) (ping_old ∷ []) Closed }
    ensures arrival { arrives ping_old ≡ Arrival.Asks ping None None }
    ensures replies { replies 0 (past_of (Opening ∷ comes ping_old ∷ answers 0 0 (codes "{\"ok\":true}") ∷ []))
        ≡ reply_of (success_reply (codes "{\"pong\":{\"ok\":true}}") true) true ∷ [] }
    ensures reply { success_reply (codes "{\"pong\":{\"ok\":true}}") true
        ≡ codes "HTTP/1.1 200 OK\r\nContent-Type: application/json\r\nContent-Length: 20\r\nConnection: close\r\n\r\n{\"pong\":{\"ok\":true}}" }
    ensures bytes { bytes_queued (Opening ∷ comes ping_old ∷ answers 0 0 (codes "{\"ok\":true}") ∷ []) ≡ 110 }
{
    requests_law();
}

/// Two lengths, and whatever follows.
fn two_lengths()
    ensures ends { (more : List ℕ) → Requests 0 (text_of (ping_adding (codes "Content-Length") (codes "2")) ++ more) [] (RefusedBy Refusal.BadLength) }
    ensures replies { replies 0 (past_of (Opening ∷ refuses Refusal.BadLength ∷ [])) ≡ reply_of (bare_reply 400 true) true ∷ [] }
    ensures reply { bare_reply 400 true ≡ codes "HTTP/1.1 400 Bad Request\r\nContent-Length: 0\r\nConnection: close\r\n\r\n" }
    ensures bytes { bytes_queued (Opening ∷ refuses Refusal.BadLength ∷ []) ≡ 66 }
{
    requests_law();
}

/// A chunked body.
fn chunked_body()
    ensures ends { (more : List ℕ) → Requests 0 (text_of (ping_adding (codes "Transfer-Encoding") (codes "chunked")) ++ more) [] (RefusedBy Refusal.LengthRequired) }
    ensures replies { replies 0 (past_of (Opening ∷ refuses Refusal.LengthRequired ∷ [])) ≡ reply_of (bare_reply 411 true) true ∷ [] }
    ensures reply { bare_reply 411 true ≡ codes "HTTP/1.1 411 Length Required\r\nContent-Length: 0\r\nConnection: close\r\n\r\n" }
    ensures bytes { bytes_queued (Opening ∷ refuses Refusal.LengthRequired ∷ []) ≡ 70 }
{
    requests_law();
}

/// HTTP/1.1 without `Host`.
fn without_host()
    ensures ends { (more : List ℕ) → Requests 0 (text_of ping_hostless ++ more) [] (RefusedBy Refusal.BadHost) }
    ensures replies { replies 0 (past_of (Opening ∷ refuses Refusal.BadHost ∷ [])) ≡ reply_of (bare_reply 400 true) true ∷ [] }
    ensures reply { bare_reply 400 true ≡ codes "HTTP/1.1 400 Bad Request\r\nContent-Length: 0\r\nConnection: close\r\n\r\n" }
    ensures bytes { bytes_queued (Opening ∷ refuses Refusal.BadHost ∷ []) ≡ 66 }
{
    requests_law();
}

/// A body of one byte more than may be; one that is no larger is taken.
fn large_body()
    ensures ends { (more : List ℕ) → Requests 0 (text_of (ping_of_length (codes "65537") []) ++ more) [] (RefusedBy Refusal.BodyTooLarge) }
    ensures within { (body : List ℕ) → length body ≡ 65536 → Requests 0 (text_of (ping_of_length (codes "65536") body)) (ping_of_length (codes "65536") body ∷ []) (Open []) }
    ensures replies { replies 0 (past_of (Opening ∷ refuses Refusal.BodyTooLarge ∷ []))
        ≡ reply_of (error_reply (error Code.ResourceExhausted (codes "body larger than 65536 bytes")) true) true ∷ [] }
    ensures body { document Code.ResourceExhausted (codes "body larger than 65536 bytes") ≡ codes "{\"code\":\"resource_exhausted\",\"message\":\"body larger than 65536 bytes\"}" }
    ensures body_bytes { length (document Code.ResourceExhausted (codes "body larger than 65536 bytes")) ≡ 70 }
    ensures reply { error_reply (error Code.ResourceExhausted (codes "body larger than 65536 bytes")) true
        ≡ codes "HTTP/1.1 429 Too Many Requests\r\nContent-Type: application/json\r\nContent-Length: 70\r\nConnection: close\r\n\r\n{\"code\":\"resource_exhausted\",\"message\":\"body larger than 65536 bytes\"}" }
    ensures bytes { bytes_queued (Opening ∷ refuses Refusal.BodyTooLarge ∷ []) ≡ 175 }
{
    requests_law();
}

/// A head of 8,192 bytes is taken, and no more without an end.
fn large_head()
    ensures length { length (head_text (ping_filled 8089)) ≡ 8192 }
    ensures within { Requests 0 (text_of (ping_filled 8089)) (ping_filled 8089 ∷ []) (Open []) }
    ensures ends_length { length (codes "GET / HTTP/1.1\r\nX-A: " ++ replicate 8171 97) ≡ 8192 }
    ensures ends { (more : List ℕ) → Requests 0 (codes "GET / HTTP/1.1\r\nX-A: " ++ replicate 8171 97 ++ more) [] (RefusedBy Refusal.HeadTooLarge) }
    ensures replies { replies 0 (past_of (Opening ∷ refuses Refusal.HeadTooLarge ∷ [])) ≡ reply_of (bare_reply 431 true) true ∷ [] }
    ensures reply { bare_reply 431 true ≡ codes "HTTP/1.1 431 Request Header Fields Too Large\r\nContent-Length: 0\r\nConnection: close\r\n\r\n" }
    ensures bytes { bytes_queued (Opening ∷ refuses Refusal.HeadTooLarge ∷ []) ≡ 86 }
{
    requests_law();
}

/// A head of 64 fields is taken, and one of 65 is none.
fn many_fields()
    ensures within { Requests 0 (text_of (ping_crowded 61)) (ping_crowded 61 ∷ []) (Open []) }
    ensures ends { (more : List ℕ) → Requests 0 (text_of (ping_crowded 62) ++ more) [] (RefusedBy Refusal.NotAHead) }
    ensures replies { replies 0 (past_of (Opening ∷ refuses Refusal.NotAHead ∷ [])) ≡ reply_of (bare_reply 400 true) true ∷ [] }
    ensures reply { bare_reply 400 true ≡ codes "HTTP/1.1 400 Bad Request\r\nContent-Length: 0\r\nConnection: close\r\n\r\n" }
    ensures bytes { bytes_queued (Opening ∷ refuses Refusal.NotAHead ∷ []) ≡ 66 }
{
    requests_law();
}

/// A head that does not end before its peer hangs up: nothing is queued.
fn incomplete_head()
    ensures left { Requests 0 (codes "POST /acme.v1.Ping/Ping HTTP/1.1\r\nHost: g\r\n") [] (Open (codes "POST /acme.v1.Ping/Ping HTTP/1.1\r\nHost: g\r\n")) }
    ensures replies { replies 0 (past_of (Opening ∷ HangUp 0 ∷ [])) ≡ [] }
{}

/// A hundred requests that are no calls, and whatever follows.
fn hundred_stream()
    ensures requests { (more : List ℕ) → Requests 0 (flat_map (λ k. text_of (get_request k)) (range_with_len 0 100) ++ more) (map get_request (range_with_len 0 100)) Closed }
    ensures each { (k : ℕ) → arrives (get_request k) ≡ Arrival.Judged (Verdict.Bare 405) }
{}
