// Decimal numbers, and words with one behind them, written as octets.
#![tactic(auto)]

ghost use Rattle.std.specs.Prelude.{◌++◌, length};
ghost use Rattle.basics.specs.Cursor.{HasRoom, Writes};
ghost use Rattle.text.specs.Text.{decimal};

use basics::Cursor;

// Writes a number in decimal.
pub fn put_decimal(out: &mut Cursor<'_, u8>, n: usize)
    requires { HasRoom (length (decimal n)) out.old }
    ensures { Writes (decimal n) out.old out.new }
{
    if n >= 10 {
        put_decimal(out, n / 10);
    }
    out.put(48 + (n % 10) as u8);
}

// Writes a word and then a number in decimal.
pub fn put_named(out: &mut Cursor<'_, u8>, name: &[u8], n: usize)
    requires { HasRoom (length (name.now ++ decimal n)) out.old }
    ensures { Writes (name.now ++ decimal n) out.old out.new }
{
    out.put_all(name);
    put_decimal(out, n);
}
