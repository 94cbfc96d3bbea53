ghost use Rattle.std.specs.Prelude.{◌≡◌, ◌==◌, ◌/◌, ◌%◌};
ghost use Rattle.gateway_loop.specs.Rests.{is_clients, is_exchanges, owner_as};

/// What a token names: the place of a client, or that of an exchange.
#[derive(Clone, Copy)]
pub(crate) enum Owner {
    Client(usize),
    Exchange(usize),
}

/// The token of the client in that place.
pub(crate) fn client_token(place: usize) -> usize {
    place.saturating_mul(2)
}

/// The token of the exchange in that place.
pub(crate) fn exchange_token(place: usize) -> usize {
    place.saturating_mul(2).saturating_add(1)
}

/// What the token names.
pub(crate) fn owner_of(token: usize) -> Owner
    ensures { result ≡ owner_as (token % 2 == 0) (token / 2) }
{
    let place = token / 2;
    if token % 2 == 0 {
        Owner::Client(place)
    } else {
        Owner::Exchange(place)
    }
}

/// Whether the token is that of the client in that place.
pub(crate) fn is_clients(token: usize, place: usize) -> bool
    ensures { result ≡ is_clients token place }
{
    token % 2 == 0 && token / 2 == place
}

/// Whether the token is that of the exchange in that place.
pub(crate) fn is_exchanges(token: usize, place: usize) -> bool
    ensures { result ≡ is_exchanges token place }
{
    token % 2 == 1 && token / 2 == place
}
