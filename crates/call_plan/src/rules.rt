//! What a plan's texts may be.
ghost use Rattle.std.specs.Prelude.{◌≡◌, ◌==◌, ◌∷◌, [], slice_index};
ghost use Rattle.std.specs.Char.{is_ascii_digit, is_ascii_lowercase, is_ascii_graphic};
ghost use Rattle.std.specs.List.{list_all, list_any};
ghost use Rattle.call_plan.specs.Rules.{is_name_byte, is_name, ends_in_port, is_address, is_path_byte, is_path, slash};

const MAX_NAME: usize = 64;

const MAX_ADDRESS: usize = 255;

const MAX_PATH: usize = 1024;

/// Whether it may be a branch's name: a letter from a to z, then letters from a to z, digits and `_`, 64 bytes at most.
#[tactic(auto, unfolding(crate::specs::Rules::is_name))]
pub fn is_name(name: &str) -> bool
    ensures { result ≡ is_name name.now }
{
    let bytes = name.as_bytes();
    begins_with_letter(bytes) && are_name_bytes(bytes) && bytes.len() <= MAX_NAME
}

fn begins_with_letter(text: &[u8]) -> bool
    ensures { result ≡ is_ascii_lowercase (slice_index text.now 0) }
{
    !text.is_empty() && text[0].is_ascii_lowercase()
}

fn are_name_bytes(text: &[u8]) -> bool
    ensures { result ≡ list_all is_name_byte text.now }
{
    text.iter().all(|byte| is_name_byte(*byte))
}

fn is_name_byte(byte: u8) -> bool
    ensures { result ≡ is_name_byte byte }
{
    byte.is_ascii_lowercase() || byte.is_ascii_digit() || byte == b'_'
}

/// Whether it may be a backend's address: at most 255 bytes from `!` to `~` that end in `:` and 1 to 5 digits.
#[tactic(auto, unfolding(crate::specs::Rules::is_address))]
pub fn is_address(address: &str) -> bool
    ensures { result ≡ is_address address.now }
{
    let bytes = address.as_bytes();
    bytes.len() <= MAX_ADDRESS && are_visible(bytes) && ends_in_a_port(bytes)
}

fn are_visible(text: &[u8]) -> bool
    ensures { result ≡ list_all is_ascii_graphic text.now }
{
    text.iter().all(|byte| byte.is_ascii_graphic())
}

fn ends_in_a_port(text: &[u8]) -> bool
    ensures { result ≡ list_any (ends_in_port text.now) (1 ∷ 2 ∷ 3 ∷ 4 ∷ 5 ∷ []) }
{
    [1, 2, 3, 4, 5]
        .iter()
        .any(|digits| ends_in_port(text, *digits))
}

fn ends_in_port(text: &[u8], digits: usize) -> bool
    ensures { result ≡ ends_in_port text.now digits }
{
    digits < text.len()
        && text[text.len() - digits - 1] == b':'
        && are_digits(&text[text.len() - digits..])
}

fn are_digits(text: &[u8]) -> bool
    ensures { result ≡ list_all is_ascii_digit text.now }
{
    text.iter().all(|byte| byte.is_ascii_digit())
}

/// Whether it may be a path: `/` and then bytes from `!` to `~` but no `?` and no `#`, 1,024 bytes at most in all.
#[tactic(auto, unfolding(crate::specs::Rules::is_path))]
pub fn is_path(path: &str) -> bool
    ensures { result ≡ is_path path.now }
{
    let bytes = path.as_bytes();
    begins_with_slash(bytes) && are_path_bytes(bytes) && bytes.len() <= MAX_PATH
}

fn begins_with_slash(text: &[u8]) -> bool
    ensures { result ≡ (slice_index text.now 0 == slash) }
{
    !text.is_empty() && text[0] == b'/'
}

fn are_path_bytes(text: &[u8]) -> bool
    ensures { result ≡ list_all is_path_byte text.now }
{
    text.iter().all(|byte| is_path_byte(*byte))
}

fn is_path_byte(byte: u8) -> bool
    ensures { result ≡ is_path_byte byte }
{
    byte.is_ascii_graphic() && byte != b'?' && byte != b'#'
}
