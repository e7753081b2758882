// The measures of a page, and a position on it.
#![tactic(auto)]

ghost use Rattle.std.specs.Prelude.{◌≡◌, ◌+◌, ◌<◌, ◌^◌};
ghost use Rattle.position.specs.Position.{columns_before, position_after, advanced, last_x, x_after, top_bit};

// The pels of a line, and so the columns of a row pair.
pub const PELS_PER_LINE: usize = 1726;

// The last column of a row pair, at the right edge.
pub const LAST_COLUMN: usize = PELS_PER_LINE - 1;

// A row pair's columns, by its two lines.
pub const COLUMNS_PER_LINE: usize = PELS_PER_LINE / 2;

// A line in a bitmap: its pels, and two bits behind them.
pub const OCTETS_PER_LINE: usize = 216;

pub const BITS_PER_LINE: usize = 8 * OCTETS_PER_LINE;

pub const OCTETS_PER_PAIR: usize = 2 * OCTETS_PER_LINE;

// The octets in front of the lines.
pub const OCTETS_IN_FRONT: usize = 4;

// The row pair and the column in it of the next column to lay. No invariant bounds it: those who need a bound need different ones, and
// `position_after` and `advance` answer positions that keep none.
#[derive(Clone, Copy)]
pub struct Position {
    pub pair: usize,
    pub column: usize,
}

// The position where n columns are laid.
pub fn position_after(n: usize) -> Position
    ensures { result ≡ position_after n }
{
    Position {
        pair: n / PELS_PER_LINE,
        column: n % PELS_PER_LINE,
    }
}

// The columns so far.
pub fn columns_before(p: Position) -> usize
    requires { columns_before p < 2 ^ 62 }
    ensures { result ≡ columns_before p }
{
    PELS_PER_LINE * p.pair + p.column
}

// The position where n columns more are laid.
pub fn advance(p: Position, n: usize) -> Position
    requires { columns_before p + n < 2 ^ 62 }
    ensures { result ≡ advanced p n }
{
    let column = p.column + n;
    if column < PELS_PER_LINE {
        return Position {
            pair: p.pair,
            column,
        };
    }
    Position {
        pair: p.pair + column / PELS_PER_LINE,
        column: column % PELS_PER_LINE,
    }
}

// X: the index in its row pair of the last column laid, and 1725 before the first.
pub fn last_x(p: Position) -> usize
    ensures { result ≡ last_x p }
{
    if p.column == 0 {
        LAST_COLUMN
    } else {
        p.column - 1
    }
}

// X where n columns more are laid: 0 comes after the last column.
pub fn x_after(x: usize, n: usize) -> usize
    requires { x + n < 2 ^ 62 }
    ensures { result ≡ x_after x n }
{
    let on = x + n;
    if on < PELS_PER_LINE {
        on
    } else {
        on % PELS_PER_LINE
    }
}

// The bit of a bitmap that is the column's top pel. The bottom pel is BITS_PER_LINE behind it.
pub fn top_bit(p: Position) -> usize
    requires { columns_before p < 2 ^ 60 }
    ensures { result ≡ top_bit p }
{
    8 * (OCTETS_IN_FRONT + OCTETS_PER_PAIR * p.pair) + p.column
}
