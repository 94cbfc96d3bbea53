use std::alloc::{AllocError, Global};
use strsim::levenshtein;

/// The known key that one which is not known is near to: the same but for case, `_` and `-`; or the front of it, or
/// what it is the front of, from three letters on; or one letter away from it, two where it has more than five.
pub(crate) fn meant_key(
    alloc: Global,
    key: &str,
    known: &[&'static str],
) -> Result<Option<&'static str>, AllocError> {
    if known.iter().any(|name| *name == key) {
        return Ok(None);
    }
    let plain = plain(alloc, key)?;
    for place in 0..known.len() {
        let name = known[place];
        if is_near(alloc, plain.as_str(), name)? {
            return Ok(Some(name));
        }
    }
    Ok(None)
}

/// A key in small letters, with no `_` and no `-`.
fn plain(alloc: Global, key: &str) -> Result<String, AllocError> {
    let mut plain = String::new(alloc);
    for letter in key.chars() {
        if letter != '_' && letter != '-' {
            plain.push(letter.to_ascii_lowercase())?;
        }
    }
    Ok(plain)
}

fn is_near(alloc: Global, key: &str, known: &str) -> Result<bool, AllocError> {
    let known = plain(alloc, known)?;
    let known = known.as_str();
    if key.len() >= 3 && (known.starts_with(key) || key.starts_with(known)) {
        return Ok(true);
    }
    // a longer key is no slip of the hand, and comparing it would take its time
    if key.len() > known.len() + 2 {
        return Ok(false);
    }
    let most = if known.len() > 5 { 2 } else { 1 };
    Ok(levenshtein(alloc, key, known)? <= most)
}
