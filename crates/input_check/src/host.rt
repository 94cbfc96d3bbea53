//! Hosts that an address can't mean.
ghost use Rattle.std.specs.Prelude.{◌≡◌, ◌==◌, slice_index, option_map, true, None};
ghost use Rattle.std.specs.Char.{is_ascii_digit};
ghost use Rattle.std.specs.List.{list_all, list_any};
ghost use Rattle.input_check.specs.Host.{bracket, colon, fault_of, goes_on_as_ipv4, has_empty_label, host_fault};
ghost use Rattle.input_check.specs.Host.{host_of, is_digit_or_dot, is_no_ipv4, is_placeholder_byte, is_told_byte};
ghost use Rattle.input_check.specs.Host.{is_unbracketed, octet_with, star};

/// Why the host of an address can't be meant.
#[derive(Clone, Copy, PartialEq, Eq, Debug)]
pub(crate) enum HostFault {
    /// Nothing stands before the `:`.
    Absent,
    /// A byte of what was to be filled in: `$`, `{`, `}`, `<` or `>`.
    Placeholder,
    /// A `*`.
    Wildcard,
    /// A `:` in it, as in an IPv6 address, and no bracket in front.
    Unbracketed,
    /// Two dots in a row, or one in front.
    EmptyLabel,
    /// Digits and dots alone, and no IPv4 address.
    NoIpv4,
}

/// Why the host of an address can't be meant, if it can't: what stands before its last `:`.
pub(crate) fn host_fault(address: &[u8]) -> Option<HostFault>
    ensures { result ≡ host_fault address.now }
{
    match host_of(address) {
        Some(host) => fault_of(host),
        None => None,
    }
}

/// What stands before the last `:`.
#[tactic(auto, using(crate::proofs::Hosts::ends, crate::proofs::Hosts::passes, crate::proofs::Hosts::found))]
fn host_of(address: &[u8]) -> Option<&[u8]>
    ensures { option_map (λ host. host.now) result ≡ host_of address.now }
{
    let mut end = address.len();
    while end > 0 {
        end -= 1;
        if address[end] == b':' {
            return Some(&address[..end]);
        }
    }
    None
}

#[tactic(auto, unfolding(crate::specs::Host::fault_of))]
fn fault_of(host: &[u8]) -> Option<HostFault>
    ensures { result ≡ fault_of host.now }
{
    if host.is_empty() {
        Some(HostFault::Absent)
    } else if has_placeholder(host) {
        Some(HostFault::Placeholder)
    } else if has_wildcard(host) {
        Some(HostFault::Wildcard)
    } else if is_unbracketed(host) {
        Some(HostFault::Unbracketed)
    } else if has_empty_label(host) {
        Some(HostFault::EmptyLabel)
    } else if is_no_ipv4(host) {
        Some(HostFault::NoIpv4)
    } else {
        None
    }
}

fn has_placeholder(host: &[u8]) -> bool
    ensures { result ≡ list_any is_placeholder_byte host.now }
{
    host.iter().any(|byte| is_placeholder_byte(*byte))
}

fn is_placeholder_byte(byte: u8) -> bool
    ensures { result ≡ is_placeholder_byte byte }
{
    byte == b'$' || byte == b'{' || byte == b'}' || byte == b'<' || byte == b'>'
}

fn has_wildcard(host: &[u8]) -> bool
    ensures { result ≡ list_any (λ c. c == star) host.now }
{
    host.iter().any(|byte| *byte == b'*')
}

fn is_unbracketed(host: &[u8]) -> bool
    ensures { result ≡ is_unbracketed host.now }
{
    has_colon(host) && !begins_with_bracket(host) && !has_told_byte(host)
}

fn has_colon(host: &[u8]) -> bool
    ensures { result ≡ list_any (λ c. c == colon) host.now }
{
    host.iter().any(|byte| *byte == b':')
}

fn has_told_byte(host: &[u8]) -> bool
    ensures { result ≡ list_any is_told_byte host.now }
{
    host.iter().any(|byte| is_told_byte(*byte))
}

fn begins_with_bracket(host: &[u8]) -> bool
    ensures { result ≡ (slice_index host.now 0 == bracket) }
{
    !host.is_empty() && host[0] == b'['
}

/// What is said of an address with this byte stands elsewhere.
fn is_told_byte(byte: u8) -> bool
    ensures { result ≡ is_told_byte byte }
{
    byte == b'/' || byte == b',' || byte == b'@'
}

/// Whether two dots stand in a row, or one in front.
fn has_empty_label(host: &[u8]) -> bool
    ensures { result ≡ has_empty_label true host.now }
{
    let mut begins = true;
    for byte in host {
        let is_dot = *byte == b'.';
        if begins && is_dot {
            return true;
        }
        begins = is_dot;
    }
    false
}

fn is_no_ipv4(host: &[u8]) -> bool
    ensures { result ≡ is_no_ipv4 host.now }
{
    are_digits_and_dots(host) && !is_ipv4(host)
}

fn are_digits_and_dots(host: &[u8]) -> bool
    ensures { result ≡ list_all is_digit_or_dot host.now }
{
    host.iter().all(|byte| is_digit_or_dot(*byte))
}

fn is_digit_or_dot(byte: u8) -> bool
    ensures { result ≡ is_digit_or_dot byte }
{
    byte.is_ascii_digit() || byte == b'.'
}

/// Whether it is an IPv4 address: four numbers from 0 to 255, with dots between them and no 0 in front of a digit.
fn is_ipv4(host: &[u8]) -> bool
    ensures { result ≡ goes_on_as_ipv4 3 None host.now }
{
    let mut dots = 3u8;
    let mut octet = None;
    for byte in host {
        if *byte == b'.' {
            if dots == 0 || octet.is_none() {
                return false;
            }
            dots -= 1;
            octet = None;
        } else if byte.is_ascii_digit() {
            octet = octet_with(octet, *byte);
            if octet.is_none() {
                return false;
            }
        } else {
            return false;
        }
    }
    dots == 0 && octet.is_some()
}

/// The number behind one more digit, if it is at most 255 and no 0 stands in front.
fn octet_with(octet: Option<u8>, digit: u8) -> Option<u8>
    requires { is_ascii_digit digit ≡ true }
    ensures { result ≡ octet_with octet digit }
{
    let Some(n) = octet else {
        return Some(digit - b'0');
    };
    if n == 0 {
        return None;
    }
    let more = n as u16 * 10 + (digit - b'0') as u16;
    if more <= 255 { Some(more as u8) } else { None }
}
