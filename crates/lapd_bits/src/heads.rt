//! The first octets of a frame, as a framer keeps them of the latest.

ghost use Rattle.std.specs.Prelude.{◌≡◌, ◌++◌, get_or};
ghost use Rattle.model_bits.specs.Heads.{first_four};

/// Keeps the first four octets of both, one after the other; 0 if there are fewer.
#[inline(always)]
pub(crate) fn keep_first_four(first: &mut [u8; 4], head: &[u8], info: &[u8])
    ensures { first.new ≡ first_four (head.now ++ info.now) }
{
    // So it is where the control field has two octets.
    if head.len() >= 4 {
        *first = [head[0], head[1], head[2], head[3]];
    } else {
        *first = first_of_both(head, info);
    }
}

// Apart, so that four octets of a head are one load and one store.
#[inline(never)]
fn first_of_both(head: &[u8], info: &[u8]) -> [u8; 4]
    ensures { result ≡ first_four (head.now ++ info.now) }
{
    [
        octet_at(head, info, 0),
        octet_at(head, info, 1),
        octet_at(head, info, 2),
        octet_at(head, info, 3),
    ]
}

/// The octet at a place of both, one after the other; 0 where they end before it.
fn octet_at(head: &[u8], info: &[u8], place: usize) -> u8
    ensures { result ≡ get_or (head.now ++ info.now) place 0 }
{
    if place < head.len() {
        return head[place];
    }
    let behind = place - head.len();
    if behind < info.len() {
        return info[behind];
    }
    0
}
