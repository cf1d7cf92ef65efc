// The lines of the states from a cursor on, as many as there is room for.
ghost use Rattle.std.specs.Prelude.{◌≤◌, ◌<◌, length};
ghost use Rattle.cursor.specs.Cursor.{Standing};
ghost use Rattle.pages.specs.Pages.{LinesFilled};

use cursor::Cursor;
use lines::write_state_line;
use numbers::sizes::MOST_EDGES;
use walker::row::fill_row;
use walker::tables::Walker;

// How long they are, and where the cursor stands after them.
#[derive(Clone, Copy)]
pub struct Lines {
    pub len: usize,
    pub cursor: Cursor,
}

// No line has more than 400 bytes. How many lines there is room for shows only as they are written.
pub fn write_lines(
    out: &mut [u8],
    c: Cursor,
    config: &mut [i32],
    w: &Walker,
    lambda: usize,
) -> Lines
    requires { (400 ≤ length out.old) × Standing w.now.free w.now.cycles lambda w.now.n_free config.old c × (0 < c.left) }
    ensures { LinesFilled w.now.free w.now.cycles lambda w.now.n_free config.old c out.new config.new result }
{
    let mut space = [0i32; MOST_EDGES];
    let row = &mut space[..config.len()];
    let mut len = 0;
    let mut here = c;
    while 0 < here.left && 400 <= out.len() - len {
        fill_row(row, config, &w.cycles[..config.len()], here.d);
        len = write_state_line(out, len, here.number, row);
        here = here.next(config, w, lambda);
    }
    Lines { len, cursor: here }
}
