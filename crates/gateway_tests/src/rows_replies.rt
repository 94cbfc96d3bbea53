//! The worked rows of single requests and of backends' replies: what the definitions give for them. The functions do
//! nothing.
ghost use Rattle.std.specs.Prelude.{◌≡◌, ◌∷◌, [], length, codes, true, false, None, Some};
ghost use Rattle.http_pieces.specs.Requests.{Requests, Open};
ghost use Rattle.connect_codec.specs.Outcome.{outcome_of};
ghost use Rattle.connect_codec.specs.Reply.{bare_reply};
ghost use Rattle.connect_codec.specs.Verdict.{verdict_of};
ghost use Rattle.connect_codec.specs.declared.answer.Outcome.{Outcome};
ghost use Rattle.connect_codec.specs.declared.verdict.Verdict.{Verdict};
ghost use Rattle.error_document.specs.Documents.{error_text};
ghost use Rattle.error_document.specs.declared.code.Code.{Code};
ghost use Rattle.gateway_model.specs.Arrival.{Arrival};
ghost use Rattle.gateway_model.specs.Reply.{reply_of};
ghost use Rattle.gateway_model.specs.Occurrence.{Opening};
ghost use Rattle.gateway_model.specs.Past.{past_of};
ghost use Rattle.gateway_theory.specs.Replies.{replies};
ghost use Rattle.gateway_tests.specs.Rows.{ping, quote, request_for, get_request, ping_adding, ping_of_type, ping_empty, text_of, arrives, comes, error, backend_reply, outcome_at, pinged, detailed, failed_with, failed, document, bytes_queued};

/// A request of another method is told which there is.
fn another_method()
    ensures request { Requests 0 (text_of (get_request 0)) (get_request 0 ∷ []) (Open []) }
    ensures verdict { verdict_of (get_request 0) true ≡ Verdict.Bare 405 }
    ensures arrival { arrives (get_request 0) ≡ Arrival.Judged (Verdict.Bare 405) }
    ensures replies { replies 0 (past_of (Opening ∷ comes (get_request 0) ∷ [])) ≡ reply_of (bare_reply 405 false) false ∷ [] }
    ensures reply { bare_reply 405 false ≡ codes "HTTP/1.1 405 Method Not Allowed\r\nAllow: POST\r\nContent-Length: 0\r\n\r\n" }
    ensures bytes { bytes_queued (Opening ∷ comes (get_request 0) ∷ []) ≡ 67 }
{}

/// A path that names no plan.
fn unknown_path()
    ensures request { Requests 0 (text_of (request_for (codes "/acme.v1.Ping/Pong") 0)) (request_for (codes "/acme.v1.Ping/Pong") 0 ∷ []) (Open []) }
    ensures verdict { verdict_of (request_for (codes "/acme.v1.Ping/Pong") 0) false ≡ Verdict.Bare 404 }
    ensures arrival { arrives (request_for (codes "/acme.v1.Ping/Pong") 0) ≡ Arrival.Judged (Verdict.Bare 404) }
    ensures replies { replies 0 (past_of (Opening ∷ comes (request_for (codes "/acme.v1.Ping/Pong") 0) ∷ [])) ≡ reply_of (bare_reply 404 false) false ∷ [] }
    ensures reply { bare_reply 404 false ≡ codes "HTTP/1.1 404 Not Found\r\nContent-Length: 0\r\n\r\n" }
    ensures bytes { bytes_queued (Opening ∷ comes (request_for (codes "/acme.v1.Ping/Pong") 0) ∷ []) ≡ 45 }
{}

/// A content type that is not JSON.
fn another_type()
    ensures request { Requests 0 (text_of (ping_of_type (codes "application/proto"))) (ping_of_type (codes "application/proto") ∷ []) (Open []) }
    ensures verdict { verdict_of (ping_of_type (codes "application/proto")) true ≡ Verdict.Bare 415 }
    ensures arrival { arrives (ping_of_type (codes "application/proto")) ≡ Arrival.Judged (Verdict.Bare 415) }
    ensures replies { replies 0 (past_of (Opening ∷ comes (ping_of_type (codes "application/proto")) ∷ [])) ≡ reply_of (bare_reply 415 false) false ∷ [] }
    ensures reply { bare_reply 415 false ≡ codes "HTTP/1.1 415 Unsupported Media Type\r\nContent-Length: 0\r\n\r\n" }
    ensures bytes { bytes_queued (Opening ∷ comes (ping_of_type (codes "application/proto")) ∷ []) ≡ 58 }
{}

/// An encoded content.
fn encoded_content()
    ensures request { Requests 0 (text_of (ping_adding (codes "Content-Encoding") (codes "gzip"))) (ping_adding (codes "Content-Encoding") (codes "gzip") ∷ []) (Open []) }
    ensures verdict { verdict_of (ping_adding (codes "Content-Encoding") (codes "gzip")) true
        ≡ Verdict.Fail (error Code.Unimplemented (codes "content encoding not supported")) }
    ensures arrival { arrives (ping_adding (codes "Content-Encoding") (codes "gzip"))
        ≡ Arrival.Judged (Verdict.Fail (error Code.Unimplemented (codes "content encoding not supported"))) }
    ensures replies { replies 0 (past_of (Opening ∷ comes (ping_adding (codes "Content-Encoding") (codes "gzip")) ∷ []))
        ≡ failed Code.Unimplemented (codes "content encoding not supported") ∷ [] }
    ensures body { document Code.Unimplemented (codes "content encoding not supported") ≡ codes "{\"code\":\"unimplemented\",\"message\":\"content encoding not supported\"}" }
    ensures body_bytes { length (document Code.Unimplemented (codes "content encoding not supported")) ≡ 67 }
    ensures bytes { bytes_queued (Opening ∷ comes (ping_adding (codes "Content-Encoding") (codes "gzip")) ∷ []) ≡ 151 }
{}

/// Another version of the protocol.
fn another_version()
    ensures request { Requests 0 (text_of (ping_adding (codes "Connect-Protocol-Version") (codes "2"))) (ping_adding (codes "Connect-Protocol-Version") (codes "2") ∷ []) (Open []) }
    ensures verdict { verdict_of (ping_adding (codes "Connect-Protocol-Version") (codes "2")) true
        ≡ Verdict.Fail (error Code.InvalidArgument (codes "Connect-Protocol-Version must be 1")) }
    ensures arrival { arrives (ping_adding (codes "Connect-Protocol-Version") (codes "2"))
        ≡ Arrival.Judged (Verdict.Fail (error Code.InvalidArgument (codes "Connect-Protocol-Version must be 1"))) }
    ensures replies { replies 0 (past_of (Opening ∷ comes (ping_adding (codes "Connect-Protocol-Version") (codes "2")) ∷ []))
        ≡ failed Code.InvalidArgument (codes "Connect-Protocol-Version must be 1") ∷ [] }
    ensures body { document Code.InvalidArgument (codes "Connect-Protocol-Version must be 1") ≡ codes "{\"code\":\"invalid_argument\",\"message\":\"Connect-Protocol-Version must be 1\"}" }
    ensures body_bytes { length (document Code.InvalidArgument (codes "Connect-Protocol-Version must be 1")) ≡ 74 }
    ensures bytes { bytes_queued (Opening ∷ comes (ping_adding (codes "Connect-Protocol-Version") (codes "2")) ∷ []) ≡ 154 }
{}

/// A timeout of eleven digits.
fn long_timeout()
    ensures request { Requests 0 (text_of (ping_adding (codes "Connect-Timeout-Ms") (codes "12345678901"))) (ping_adding (codes "Connect-Timeout-Ms") (codes "12345678901") ∷ []) (Open []) }
    ensures verdict { verdict_of (ping_adding (codes "Connect-Timeout-Ms") (codes "12345678901")) true
        ≡ Verdict.Fail (error Code.InvalidArgument (codes "bad Connect-Timeout-Ms")) }
    ensures arrival { arrives (ping_adding (codes "Connect-Timeout-Ms") (codes "12345678901"))
        ≡ Arrival.Judged (Verdict.Fail (error Code.InvalidArgument (codes "bad Connect-Timeout-Ms"))) }
    ensures replies { replies 0 (past_of (Opening ∷ comes (ping_adding (codes "Connect-Timeout-Ms") (codes "12345678901")) ∷ []))
        ≡ failed Code.InvalidArgument (codes "bad Connect-Timeout-Ms") ∷ [] }
    ensures body { document Code.InvalidArgument (codes "bad Connect-Timeout-Ms") ≡ codes "{\"code\":\"invalid_argument\",\"message\":\"bad Connect-Timeout-Ms\"}" }
    ensures body_bytes { length (document Code.InvalidArgument (codes "bad Connect-Timeout-Ms")) ≡ 62 }
    ensures bytes { bytes_queued (Opening ∷ comes (ping_adding (codes "Connect-Timeout-Ms") (codes "12345678901")) ∷ []) ≡ 142 }
{}

/// No bytes are no JSON.
fn empty_body()
    ensures request { Requests 0 (text_of ping_empty) (ping_empty ∷ []) (Open []) }
    ensures verdict { verdict_of ping_empty true
        ≡ Verdict.Fail (error Code.InvalidArgument (codes "body is not JSON")) }
    ensures arrival { arrives ping_empty
        ≡ Arrival.Judged (Verdict.Fail (error Code.InvalidArgument (codes "body is not JSON"))) }
    ensures replies { replies 0 (past_of (Opening ∷ comes ping_empty ∷ []))
        ≡ failed Code.InvalidArgument (codes "body is not JSON") ∷ [] }
    ensures body { document Code.InvalidArgument (codes "body is not JSON") ≡ codes "{\"code\":\"invalid_argument\",\"message\":\"body is not JSON\"}" }
    ensures body_bytes { length (document Code.InvalidArgument (codes "body is not JSON")) ≡ 56 }
    ensures bytes { bytes_queued (Opening ∷ comes ping_empty ∷ []) ≡ 136 }
{}

/// A call of Quote.
fn another_plan()
    ensures request { Requests 0 (text_of (request_for quote.path 0)) (request_for quote.path 0 ∷ []) (Open []) }
    ensures verdict { verdict_of (request_for quote.path 0) true ≡ Verdict.Ask None None }
    ensures arrival { arrives (request_for quote.path 0) ≡ Arrival.Asks quote None None }
    ensures replies { replies 0 (past_of (Opening ∷ comes (request_for quote.path 0) ∷ [])) ≡ [] }
{}

/// The type is JSON, whatever its case and its parameters.
fn parameters_and_case()
    ensures request { Requests 0 (text_of (ping_of_type (codes "Application/JSON; charset=utf-8"))) (ping_of_type (codes "Application/JSON; charset=utf-8") ∷ []) (Open []) }
    ensures verdict { verdict_of (ping_of_type (codes "Application/JSON; charset=utf-8")) true ≡ Verdict.Ask None None }
    ensures arrival { arrives (ping_of_type (codes "Application/JSON; charset=utf-8")) ≡ Arrival.Asks ping None None }
    ensures replies { replies 0 (past_of (Opening ∷ comes (ping_of_type (codes "Application/JSON; charset=utf-8")) ∷ [])) ≡ [] }
{}

/// The content is not encoded.
fn identity_content()
    ensures request { Requests 0 (text_of (ping_adding (codes "Content-Encoding") (codes "identity"))) (ping_adding (codes "Content-Encoding") (codes "identity") ∷ []) (Open []) }
    ensures verdict { verdict_of (ping_adding (codes "Content-Encoding") (codes "identity")) true ≡ Verdict.Ask None None }
    ensures arrival { arrives (ping_adding (codes "Content-Encoding") (codes "identity")) ≡ Arrival.Asks ping None None }
    ensures replies { replies 0 (past_of (Opening ∷ comes (ping_adding (codes "Content-Encoding") (codes "identity")) ∷ [])) ≡ [] }
{}

/// A timeout of ten digits.
fn padded_timeout()
    ensures request { Requests 0 (text_of (ping_adding (codes "Connect-Timeout-Ms") (codes "0000000100"))) (ping_adding (codes "Connect-Timeout-Ms") (codes "0000000100") ∷ []) (Open []) }
    ensures verdict { verdict_of (ping_adding (codes "Connect-Timeout-Ms") (codes "0000000100")) true ≡ Verdict.Ask (Some 100) None }
    ensures arrival { arrives (ping_adding (codes "Connect-Timeout-Ms") (codes "0000000100")) ≡ Arrival.Asks ping (Some 100) None }
    ensures replies { replies 0 (past_of (Opening ∷ comes (ping_adding (codes "Connect-Timeout-Ms") (codes "0000000100")) ∷ [])) ≡ [] }
{}

/// A status with no error document.
fn busy_backend()
    ensures outcome { outcome_of (Some (backend_reply 503 (codes "text/plain") (codes "busy")))
        ≡ Outcome.Fail (error Code.Unavailable (codes "HTTP status 503")) }
    ensures replies { replies 0 (past_of (pinged (outcome_of (Some (backend_reply 503 (codes "text/plain") (codes "busy"))))))
        ≡ failed Code.Unavailable (codes "pong: HTTP status 503") ∷ [] }
    ensures body { document Code.Unavailable (codes "pong: HTTP status 503") ≡ codes "{\"code\":\"unavailable\",\"message\":\"pong: HTTP status 503\"}" }
    ensures body_bytes { length (document Code.Unavailable (codes "pong: HTTP status 503")) ≡ 56 }
    ensures bytes { bytes_queued (pinged (outcome_of (Some (backend_reply 503 (codes "text/plain") (codes "busy"))))) ≡ 144 }
{}

/// An answer that is not JSON.
fn broken_answer()
    ensures outcome { outcome_at 200 (codes "{")
        ≡ Outcome.Fail (error Code.Internal (codes "response is not JSON")) }
    ensures replies { replies 0 (past_of (pinged (outcome_at 200 (codes "{"))))
        ≡ failed Code.Internal (codes "pong: response is not JSON") ∷ [] }
    ensures body { document Code.Internal (codes "pong: response is not JSON") ≡ codes "{\"code\":\"internal\",\"message\":\"pong: response is not JSON\"}" }
    ensures body_bytes { length (document Code.Internal (codes "pong: response is not JSON")) ≡ 58 }
    ensures bytes { bytes_queued (pinged (outcome_at 200 (codes "{"))) ≡ 148 }
{}

/// An error with a detail, which is kept.
fn details_kept()
    ensures outcome { outcome_at 404 (codes "{\"code\":\"not_found\",\"message\":\"no\",\"details\":[{\"type\":\"t\",\"value\":\"AA\"}]}")
        ≡ Outcome.Fail (detailed Code.NotFound (codes "no")) }
    ensures replies { replies 0 (past_of (pinged (outcome_at 404 (codes "{\"code\":\"not_found\",\"message\":\"no\",\"details\":[{\"type\":\"t\",\"value\":\"AA\"}]}"))))
        ≡ failed_with (detailed Code.NotFound (codes "pong: no")) ∷ [] }
    ensures body { error_text (detailed Code.NotFound (codes "pong: no"))
        ≡ codes "{\"code\":\"not_found\",\"details\":[{\"type\":\"t\",\"value\":\"AA\"}],\"message\":\"pong: no\"}" }
    ensures body_bytes { length (error_text (detailed Code.NotFound (codes "pong: no"))) ≡ 79 }
    ensures bytes { bytes_queued (pinged (outcome_at 404 (codes "{\"code\":\"not_found\",\"message\":\"no\",\"details\":[{\"type\":\"t\",\"value\":\"AA\"}]}"))) ≡ 157 }
{}

/// Of a detail its type and its value are kept, and what is no detail is left out.
fn details_filtered()
    ensures outcome { outcome_at 404 (codes "{\"code\":\"not_found\",\"details\":[{\"type\":\"t\",\"value\":\"AA\",\"debug\":{\"x\":1}},{\"type\":5}]}")
        ≡ Outcome.Fail (detailed Code.NotFound []) }
    ensures replies { replies 0 (past_of (pinged (Outcome.Fail (detailed Code.NotFound []))))
        ≡ failed_with (detailed Code.NotFound (codes "pong")) ∷ [] }
    ensures body { error_text (detailed Code.NotFound (codes "pong"))
        ≡ codes "{\"code\":\"not_found\",\"details\":[{\"type\":\"t\",\"value\":\"AA\"}],\"message\":\"pong\"}" }
    ensures body_bytes { length (error_text (detailed Code.NotFound (codes "pong"))) ≡ 75 }
    ensures bytes { bytes_queued (pinged (Outcome.Fail (detailed Code.NotFound []))) ≡ 153 }
{}

/// Details that are no array are none.
fn details_no_array()
    ensures outcome { outcome_at 409 (codes "{\"code\":\"aborted\",\"details\":7}") ≡ Outcome.Fail (error Code.Aborted []) }
    ensures replies { replies 0 (past_of (pinged (Outcome.Fail (error Code.Aborted [])))) ≡ failed Code.Aborted (codes "pong") ∷ [] }
    ensures body { document Code.Aborted (codes "pong") ≡ codes "{\"code\":\"aborted\",\"message\":\"pong\"}" }
    ensures body_bytes { length (document Code.Aborted (codes "pong")) ≡ 35 }
    ensures bytes { bytes_queued (pinged (Outcome.Fail (error Code.Aborted []))) ≡ 112 }
{}

/// An error whose code the status stands for has no details.
fn details_without_code()
    ensures outcome { outcome_at 404 (codes "{\"message\":\"m\",\"details\":[{\"type\":\"t\",\"value\":\"AA\"}]}")
        ≡ Outcome.Fail (error Code.Unimplemented (codes "m")) }
    ensures replies { replies 0 (past_of (pinged (Outcome.Fail (error Code.Unimplemented (codes "m")))))
        ≡ failed Code.Unimplemented (codes "pong: m") ∷ [] }
    ensures body { document Code.Unimplemented (codes "pong: m") ≡ codes "{\"code\":\"unimplemented\",\"message\":\"pong: m\"}" }
    ensures body_bytes { length (document Code.Unimplemented (codes "pong: m")) ≡ 44 }
    ensures bytes { bytes_queued (pinged (Outcome.Fail (error Code.Unimplemented (codes "m")))) ≡ 128 }
{}

/// An error of a code alone.
fn error_without_message()
    ensures outcome { outcome_at 409 (codes "{\"code\":\"aborted\"}") ≡ Outcome.Fail (error Code.Aborted []) }
    ensures replies { replies 0 (past_of (pinged (outcome_at 409 (codes "{\"code\":\"aborted\"}"))))
        ≡ failed Code.Aborted (codes "pong") ∷ [] }
    ensures body { document Code.Aborted (codes "pong") ≡ codes "{\"code\":\"aborted\",\"message\":\"pong\"}" }
    ensures body_bytes { length (document Code.Aborted (codes "pong")) ≡ 35 }
    ensures bytes { bytes_queued (pinged (outcome_at 409 (codes "{\"code\":\"aborted\"}"))) ≡ 112 }
{}

/// An error of a message alone: the status stands for its code.
fn error_without_code()
    ensures outcome { outcome_at 404 (codes "{\"message\":\"m\"}")
        ≡ Outcome.Fail (error Code.Unimplemented (codes "m")) }
    ensures replies { replies 0 (past_of (pinged (outcome_at 404 (codes "{\"message\":\"m\"}"))))
        ≡ failed Code.Unimplemented (codes "pong: m") ∷ [] }
    ensures body { document Code.Unimplemented (codes "pong: m") ≡ codes "{\"code\":\"unimplemented\",\"message\":\"pong: m\"}" }
    ensures body_bytes { length (document Code.Unimplemented (codes "pong: m")) ≡ 44 }
    ensures bytes { bytes_queued (pinged (outcome_at 404 (codes "{\"message\":\"m\"}"))) ≡ 128 }
{}

/// What the backends of the other rows say.
fn outcomes_of_calls()
    ensures answer { outcome_at 200 (codes "{\"ok\":true}") ≡ Outcome.Answer (codes "{\"ok\":true}") }
    ensures number { outcome_at 200 (codes "1") ≡ Outcome.Answer (codes "1") }
    ensures lost { outcome_of None ≡ Outcome.Fail (error Code.Unavailable (codes "backend unreachable")) }
    ensures exhausted { outcome_at 429 (codes "{\"code\":\"resource_exhausted\",\"message\":\"sold out\"}")
        ≡ Outcome.Fail (error Code.ResourceExhausted (codes "sold out")) }
    ensures empty { outcome_at 503 [] ≡ Outcome.Fail (error Code.Unavailable (codes "HTTP status 503")) }
{}
