ghost use Rattle.std.specs.Prelude.{◌≡◌, ◌<◌, length};
ghost use Rattle.http_pieces.specs.Cut.{most_head};
ghost use Rattle.http_pieces.specs.Scan.{IsScanned, Scans, match_on, scan_on};

/// A head has at most so many bytes, from the end of the CR LF pairs before it.
pub(crate) const MAX_HEAD: usize = 8192;

/// How far a piece was scanned for the end of a head.
#[derive(Clone, Copy, Debug)]
pub(crate) struct Scan {
    /// How many bytes of the piece were looked at.
    pub(crate) seen: usize,
    /// The place in the piece behind the last CR LF pair that leads the head, or 0.
    pub(crate) skipped: usize,
    /// How many bytes the head has by now.
    pub(crate) size: usize,
    /// How many bytes of CR LF CR LF it ends in. All four end its block.
    pub(crate) matched: usize,
}

/// Goes on with the bytes of a head, which end in so many bytes of CR LF CR LF, and looks at each
/// byte of the piece once: up to the end of the block, to the limit, or to the piece's end.
pub(crate) fn scan_piece(bytes: &[u8], matched: usize, piece: &[u8]) -> Scan
    requires { IsScanned bytes.now matched }
    ensures { Scans bytes.now piece.now result }
{
    let mut scan = Scan {
        seen: 0,
        skipped: 0,
        size: bytes.len(),
        matched,
    };
    for byte in piece {
        if scan.matched == 4 || scan.size == MAX_HEAD {
            return scan;
        }
        scan = scan_on(scan, *byte);
    }
    scan
}

/// The scan, one byte on.
fn scan_on(scan: Scan, byte: u8) -> Scan
    requires room { scan.seen < usize.MAX }
    requires size { scan.size < most_head }
    ensures { result ≡ scan_on scan byte }
{
    let matched = match_on(scan.matched, byte);
    let seen = scan.seen + 1;
    if scan.size == 1 && matched == 2 {
        // The head would begin with this pair: it is skipped.
        return Scan {
            seen,
            skipped: seen,
            size: 0,
            matched: 0,
        };
    }
    Scan {
        seen,
        skipped: scan.skipped,
        size: scan.size + 1,
        matched,
    }
}

/// How many bytes of CR LF CR LF a text ends in, which ended in so many before this byte.
fn match_on(matched: usize, byte: u8) -> usize
    ensures { result ≡ match_on matched byte }
{
    match (byte, matched) {
        (b'\r', 2 | 4) => 3,
        (b'\r', _) => 1,
        (b'\n', 1) => 2,
        (b'\n', 3) => 4,
        _ => 0,
    }
}
