// Answers as text: numbers, nodes, methods and lists, in the form in which a script writes them. Each function writes into a lent
// buffer from at on and answers the place after; what has no room is left out.
ghost use Rattle.std.specs.Prelude.{◌≡◌, ◌+◌, ◌<◌, ℕ, List, [], ◌∷◌, ◌++◌, length};
ghost use Rattle.hex_text.specs.Text.{end_of, text_at, number_text};
ghost use Rattle.replay.specs.Text.{whole_text, node_text, given_text, history_text, method_text, between_text, each_by, list_by};

use device::{ChargeHistory, Discretisation, NodeId};

// The byte of a decimal digit.
fn digit_byte(d: u64) -> u8
    requires { d < 10 }
    ensures { result ≡ 48 + d }
{
    (48 + d) as u8
}

// A whole number in decimal. The digits are found from the last one up, so the loop counts down by hand: how many there are is known
// behind it.
pub fn put_whole(out: &mut [u8], at: usize, x: u64) -> usize
    ensures value { result ≡ end_of (length out.old) at (whole_text x) }
    ensures out_after { out.new ≡ text_at out.old at (whole_text x) }
{
    let mut digits = [0u8; 20];
    let mut first = 19;
    digits[19] = digit_byte(x % 10);
    let mut rest = x / 10;
    while first > 0 {
        if rest == 0 {
            return hex_text::put_text(out, at, &digits[first..]);
        }
        first -= 1;
        digits[first] = digit_byte(rest % 10);
        rest = rest / 10;
    }
    hex_text::put_text(out, at, &digits[first..])
}

// What is printed by one text. Places in the buffer are handed on, not slices: the contracts say where a text ends in the whole buffer.
pub trait Text: Copy {
    ghost text: { Self → List ℕ };

    fn put(self, out: &mut [u8], at: usize) -> usize
        ensures value { result ≡ end_of (length out.old) at (text self) }
        ensures out_after { out.new ≡ text_at out.old at (text self) };
}

impl Text for f64 {
    ghost text = { number_text };

    fn put(self, out: &mut [u8], at: usize) -> usize {
        hex_text::put_number(out, at, self)
    }
}

impl Text for u64 {
    ghost text = { whole_text };

    fn put(self, out: &mut [u8], at: usize) -> usize {
        put_whole(out, at, self)
    }
}

impl Text for usize {
    ghost text = { whole_text };

    fn put(self, out: &mut [u8], at: usize) -> usize {
        put_whole(out, at, self as u64)
    }
}

impl Text for u32 {
    ghost text = { whole_text };

    fn put(self, out: &mut [u8], at: usize) -> usize {
        put_whole(out, at, u64::from(self))
    }
}

// A value behind a text.
pub fn put_behind<T: Text>(out: &mut [u8], at: usize, before: &[u8], x: T) -> usize
    ensures value { result ≡ end_of (length out.old) at (before.now ++ T.text x) }
    ensures out_after { out.new ≡ text_at out.old at (before.now ++ T.text x) }
{
    let n = hex_text::put_text(out, at, before);
    x.put(out, n)
}

// Values, each behind the text.
pub fn put_each<T: Text>(out: &mut [u8], at: usize, before: &[u8], xs: &[T]) -> usize
    ensures value { result ≡ end_of (length out.old) at (each_by (λ x. before.now ++ T.text x) xs.now) }
    ensures out_after { out.new ≡ text_at out.old at (each_by (λ x. before.now ++ T.text x) xs.now) }
{
    let mut n = at;
    for x in xs {
        n = put_behind(out, n, before, *x);
    }
    n
}

// A list after a space.
pub fn put_list<T: Text>(out: &mut [u8], at: usize, xs: &[T]) -> usize
    ensures value { result ≡ end_of (length out.old) at (list_by T.text xs.now) }
    ensures out_after { out.new ≡ text_at out.old at (list_by T.text xs.now) }
{
    match xs.split_first() {
        None => hex_text::put_text(out, at, b" -"),
        Some((first, further)) => {
            let n = put_behind(out, at, b" ", *first);
            put_each(out, n, b",", further)
        }
    }
}

// A node's number; ground is `-`.
pub fn put_node(out: &mut [u8], at: usize, node: NodeId) -> usize
    ensures value { result ≡ end_of (length out.old) at (node_text node) }
    ensures out_after { out.new ≡ text_at out.old at (node_text node) }
{
    match node {
        NodeId::Ground => hex_text::put_text(out, at, b"-"),
        NodeId::At(row) => put_whole(out, at, row as u64),
    }
}

pub fn put_given(out: &mut [u8], at: usize, given: Option<f64>) -> usize
    ensures value { result ≡ end_of (length out.old) at (given_text given) }
    ensures out_after { out.new ≡ text_at out.old at (given_text given) }
{
    match given {
        None => hex_text::put_text(out, at, b"none"),
        Some(x) => hex_text::put_number(out, at, x),
    }
}

// The last charge, the one before or none, the last current.
pub fn put_history(out: &mut [u8], at: usize, h: ChargeHistory) -> usize
    ensures value { result ≡ end_of (length out.old) at (history_text h) }
    ensures out_after { out.new ≡ text_at out.old at (history_text h) }
{
    let before = h.q_prev2;
    let a = hex_text::put_number(out, at, h.q_prev);
    let b = hex_text::put_text(out, a, b"/");
    let c = put_given(out, b, before);
    let d = hex_text::put_text(out, c, b"/");
    hex_text::put_number(out, d, h.i_prev)
}

pub fn put_method(out: &mut [u8], at: usize, disc: Discretisation) -> usize
    ensures value { result ≡ end_of (length out.old) at (method_text disc) }
    ensures out_after { out.new ≡ text_at out.old at (method_text disc) }
{
    match disc {
        Discretisation::None => hex_text::put_text(out, at, b"none"),
        Discretisation::Euler(h) => {
            let n = hex_text::put_text(out, at, b"euler:");
            hex_text::put_number(out, n, h)
        }
        Discretisation::Trapezoid(h) => {
            let n = hex_text::put_text(out, at, b"trap:");
            hex_text::put_number(out, n, h)
        }
        Discretisation::Gear(h, h_prev) => {
            let a = hex_text::put_text(out, at, b"gear:");
            let b = hex_text::put_number(out, a, h);
            let c = hex_text::put_text(out, b, b":");
            hex_text::put_number(out, c, h_prev)
        }
    }
}

// Two nodes and a value, after a space.
pub fn put_between(out: &mut [u8], at: usize, pos: NodeId, neg: NodeId, x: f64) -> usize
    ensures value { result ≡ end_of (length out.old) at (between_text pos neg x) }
    ensures out_after { out.new ≡ text_at out.old at (between_text pos neg x) }
{
    let a = hex_text::put_text(out, at, b" ");
    let b = put_node(out, a, pos);
    let c = hex_text::put_text(out, b, b":");
    let d = put_node(out, c, neg);
    let e = hex_text::put_text(out, d, b":");
    hex_text::put_number(out, e, x)
}
