// How far a state goes on along two rows, an octet at a time. For a single row, it is both of the two.
#![tactic(auto)]

ghost use Rattle.std.specs.Prelude.{◌<◌, ◌+◌, ◌≤◌, length};
ghost use Rattle.position.specs.Position.{octets_per_line, bits_per_line};
ghost use Rattle.bitmap_find.specs.Found.{First, FirstChange};

// The first column from `from` on, of octet a over octet b, that is not s; 8 where there is none.
fn first(a: u8, b: u8, s: u8, from: usize) -> usize
    requires { (from < 8) × (s < 4) }
    ensures { First a b s from result }
{
    let differs = (a ^ (s / 2 * 255)) | (b ^ (s % 2 * 255));
    u8::leading_zeros(differs & (255 >> from)) as usize
}

// The first column from `from` up to `to`, of the rows that begin at octets top and bottom, that is not s; `to` where there is none.
pub fn first_change(
    bitmap: &[u8],
    top: usize,
    bottom: usize,
    from: usize,
    to: usize,
    s: u8,
) -> usize
    requires { (from ≤ to) × (to ≤ bits_per_line) × (top + octets_per_line ≤ length bitmap.now) × (bottom + octets_per_line ≤ length bitmap.now) × (s < 4) }
    ensures { FirstChange bitmap.now top bottom s from to result }
{
    let mut x = from % 8;
    for j in from / 8..to.div_ceil(8) {
        let f = first(bitmap[top + j], bitmap[bottom + j], s, x);
        if f < 8 {
            let r = 8 * j + f;
            return if r < to { r } else { to };
        }
        x = 0;
    }
    to
}
