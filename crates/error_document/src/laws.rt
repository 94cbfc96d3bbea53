//! What follows from the definitions alone. The functions are empty: their clauses are the laws.
ghost use Rattle.std.specs.Prelude.{◌≡◌, ◌++◌, ◌≢◌, ℕ, List, [], ◌∷◌, Some, codes, map};
ghost use Rattle.serde_json.specs.Data.{string, array};
ghost use Rattle.serde_json.specs.View.{items_of};
ghost use Rattle.serde_json.specs.Written.{compact_text};
ghost use Rattle.error_document.specs.Codes.{code_name, code_named};
ghost use Rattle.error_document.specs.Documents.{plain_error, detail_document, error_text};
ghost use Rattle.error_document.specs.declared.code.Code.{Code as AnyCode};
ghost use Rattle.error_document.specs.declared.detail.Detail.{Detail};

/// A name belongs to one code: each code is found by its own name, and by no other.
pub fn names_and_codes()
    ensures by_its_name { (code : AnyCode) → code_named (code_name code) ≡ Some code }
    ensures by_no_other { (name : List ℕ) (code : AnyCode) → code_named name ≡ Some code
        → code_name code ≡ name }
{}

/// The text of an error, piece by piece. Texts are written as `serde_json` writes them.
pub fn text_of_an_error()
    ensures without_message { (code : AnyCode)
        → error_text (plain_error code [])
        ≡ codes "{\"code\":\"" ++ code_name code ++ codes "\"}" }
    ensures with_message { (code : AnyCode) (message : List ℕ) → message ≢ []
        → error_text (plain_error code message)
        ≡ codes "{\"code\":\"" ++ code_name code ++ codes "\",\"message\":"
        ++ compact_text (string message) ++ codes "}" }
    ensures with_details { (code : AnyCode) (message : List ℕ) (details : List Detail)
        → message ≢ [] → details ≢ []
        → error_text (record { code = code; message = message; details = details })
        ≡ codes "{\"code\":\"" ++ code_name code ++ codes "\",\"details\":"
        ++ compact_text (array (items_of (map detail_document details))) ++ codes ",\"message\":"
        ++ compact_text (string message) ++ codes "}" }
    ensures of_a_detail { (detail : Detail)
        → compact_text (detail_document detail)
        ≡ codes "{\"type\":" ++ compact_text (string detail.type_name) ++ codes ",\"value\":"
        ++ compact_text (string detail.value) ++ codes "}" }
{}
