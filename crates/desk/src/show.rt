// The crosspoints: a line of sources, and a picture.
use crate::Desk;
use desk_crosspoints::SIDE;
use std::fmt;

impl Desk {
    // How many sources: at most `SIDE`.
    fn sources(&self) -> usize {
        (self.figures.sources as usize).min(SIDE)
    }
}

// The sources of a target, `-` for none.
#[derive(Clone, Copy)]
struct Row<'a>(&'a [u8]);

impl fmt::Display for Row<'_> {
    fn fmt<W: fmt::Write>(&self, f: &mut fmt::Formatter<W>) -> fmt::Result {
        let mut begun = false;
        for (source, cell) in self.0.iter().enumerate() {
            if *cell == 0 {
                continue;
            }
            if begun {
                write!(f, ".")?;
            }
            write!(f, "{source}")?;
            begun = true;
        }
        if !begun {
            write!(f, "-")?;
        }
        Ok(())
    }
}

// The sources of each target. A desk that is there has sources.
#[derive(Clone, Copy)]
pub(crate) struct Sources<'a>(pub(crate) &'a Desk);

impl fmt::Display for Sources<'_> {
    fn fmt<W: fmt::Write>(&self, f: &mut fmt::Formatter<W>) -> fmt::Result {
        let desk = self.0;
        for (target, row) in desk.cells.chunks(desk.sources().max(1)).enumerate() {
            if 0 < target {
                write!(f, ";")?;
            }
            write!(f, "{}", Row(row))?;
        }
        Ok(())
    }
}

// The picture: targets down, sources across.
#[derive(Clone, Copy)]
pub(crate) struct Grid<'a>(pub(crate) &'a Desk);

impl fmt::Display for Grid<'_> {
    fn fmt<W: fmt::Write>(&self, f: &mut fmt::Formatter<W>) -> fmt::Result {
        let desk = self.0;
        let sources = desk.sources();
        write!(f, "   ")?;
        for source in 0..sources {
            write!(f, "{}", source / 10)?;
        }
        write!(f, "\n   ")?;
        for source in 0..sources {
            write!(f, "{}", source % 10)?;
        }
        writeln!(f)?;
        for (target, row) in desk.cells.chunks(sources.max(1)).enumerate() {
            // A line at once: mark by mark the picture took longer.
            let mut marks = [b'.'; SIDE];
            for (mark, cell) in marks.iter_mut().zip(row) {
                if *cell != 0 {
                    *mark = b'#';
                }
            }
            let line = marks.get(..row.len()).unwrap_or_default();
            let line = str::from_utf8(line).map_err(|_| fmt::Error)?;
            writeln!(f, "{target:02} {line}")?;
        }
        Ok(())
    }
}
