// The records of a file, written: one with a frame, and the end record.
#![tactic(auto)]

ghost use Rattle.std.specs.Prelude.{◌∷◌, ◌+◌, length};
ghost use Rattle.basics.specs.Cursor.{HasRoom, Writes};
ghost use Rattle.frame.specs.Layout.{end_record};

use basics::Cursor;

// Writes a record with a frame.
pub fn put_record(out: &mut Cursor<'_, u8>, command: u8, frame: &[u8])
    requires { HasRoom (2 + length frame.now) out.old }
    ensures { Writes (76 ∷ command ∷ frame.now) out.old out.new }
{
    out.put(76);
    out.put(command);
    out.put_all(frame);
}

// Writes the end record.
pub fn put_end(out: &mut Cursor<'_, u8>)
    requires { HasRoom 2 out.old }
    ensures { Writes end_record out.old out.new }
{
    out.put_all(&[2, 58]);
}
