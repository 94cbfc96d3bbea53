/// Whether a branch with this address is asked where the gateway itself listens, by that address of its own: the ports
/// are the same, and so are the hosts, as far as their texts tell.
pub(crate) fn is_own(address: &str, own: &str) -> bool {
    match (parts_of(address), parts_of(own)) {
        (Some((host, port)), Some((own_host, own_port))) => {
            port == own_port && is_same_host(host, own_host)
        }
        _ => false,
    }
}

/// The host and the port of an address.
fn parts_of(address: &str) -> Option<(&str, u64)> {
    let (host, port) = address.rsplit_once(':')?;
    Some((host, port.parse::<u64>().ok()?))
}

fn is_same_host(host: &str, own: &str) -> bool {
    host.eq_ignore_ascii_case(own)
        || is_any(own) && is_this_machine(host)
        || is_any(host) && is_this_machine(own)
        || is_localhost(host) && is_first_of_this_machine(own)
        || is_localhost(own) && is_first_of_this_machine(host)
}

/// Whether the host stands for every address of the machine.
fn is_any(host: &str) -> bool {
    host == "0.0.0.0" || host == "[::]"
}

/// Whether the host is this machine, whatever machine that is.
fn is_this_machine(host: &str) -> bool {
    is_any(host) || is_localhost(host) || host == "[::1]" || host.starts_with("127.")
}

/// Whether the host is one of those to which `localhost` leads.
fn is_first_of_this_machine(host: &str) -> bool {
    host == "127.0.0.1" || host == "[::1]"
}

fn is_localhost(host: &str) -> bool {
    host.eq_ignore_ascii_case("localhost")
}
