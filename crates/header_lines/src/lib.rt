// The lines of a header that are read: found by position, guarded by name.
#![tactic(auto)]

ghost use Rattle.std.specs.Prelude.{◌≡◌, option_copied};
ghost use Rattle.header_lines.specs.Lines.{index_of, line_of, position_of, place_of, data_of};

// A line's position, counted from 0, and the eight bytes of its name.
#[derive(Clone, Copy)]
pub struct Line {
    pub position: u32,
    pub name: [u8; 8],
}

// The lines of the table, by their names.
#[derive(Clone, Copy)]
pub enum LineId {
    Format,
    Version,
    Hdrblks,
    Noverfl,
    Npixelb,
    Nrows,
    Ncols,
    Linear,
    Nexp,
}

const LINES: [Line; 9] = [
    Line {
        position: 0,
        name: *b"FORMAT :",
    },
    Line {
        position: 1,
        name: *b"VERSION:",
    },
    Line {
        position: 2,
        name: *b"HDRBLKS:",
    },
    Line {
        position: 20,
        name: *b"NOVERFL:",
    },
    Line {
        position: 39,
        name: *b"NPIXELB:",
    },
    Line {
        position: 40,
        name: *b"NROWS  :",
    },
    Line {
        position: 41,
        name: *b"NCOLS  :",
    },
    Line {
        position: 58,
        name: *b"LINEAR :",
    },
    Line {
        position: 79,
        name: *b"NEXP   :",
    },
];

fn index_of(id: LineId) -> usize
    ensures { result ≡ index_of id }
{
    match id {
        LineId::Format => 0,
        LineId::Version => 1,
        LineId::Hdrblks => 2,
        LineId::Noverfl => 3,
        LineId::Npixelb => 4,
        LineId::Nrows => 5,
        LineId::Ncols => 6,
        LineId::Linear => 7,
        LineId::Nexp => 8,
    }
}

pub fn line_of(id: LineId) -> Line
    ensures { result ≡ line_of id }
{
    let k = index_of(id);
    LINES[k]
}

pub fn position_of(id: LineId) -> u32
    ensures { result ≡ position_of id }
{
    let l = line_of(id);
    l.position
}

// The line ends within the header and has its name.
pub fn place_of(header: &[u8], id: LineId) -> Option<usize>
    ensures { result ≡ place_of header.now id }
{
    let l = line_of(id);
    let start = l.position as usize * 80;
    if header.len() < start + 80 {
        return None;
    }
    if header[start..start + 80].starts_with(&l.name) {
        Some(start + 8)
    } else {
        None
    }
}

// The 72 characters of a line's data, where the line stands in the header.
pub fn data_of(header: &[u8], id: LineId) -> Option<&[u8]>
    ensures { option_copied result ≡ data_of header.now id }
{
    let start = place_of(header, id)?;
    Some(&header[start..start + 72])
}
