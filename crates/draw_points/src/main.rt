// Makes the draws that stdin has, one to a row, and prints the outcome of each, one to a line: the refusal of the opening; the answer
// (refusal, attempts, accepted, entries); the next session (degree, deviation, drawn); y; and the read list (length, first and last entry
// of its filled part, and a sum over the whole of the memory). y is a part of nine fives and the list a part of 5,940 sevens, so that what
// is not written is seen. The files stdin and stdout beside src/ are written by points.py, another program.
#![tactic(auto)]

use session::{DrawAnswer, Drawn, Opened, Session};
use std::io::{BufReader, BufWriter, Read, Write};
use std::{array, fmt, io};

// The columns of a row, each of a byte that sets it off and 16 hexadecimal digits. After a row with a CDT table and one with a polynomial
// table come draws over them, as many as the last column of the CDT table's row says.
const COLUMNS: usize = 23;

// The value of a digit: those from a on have bit 6, and their low four bits start at 1.
fn digit(byte: u8) -> u64 {
    u64::from(byte % 16 + byte / 64 * 9)
}

// The next column. The byte before its digits is shifted out by them.
fn column<R: Read>(row: &mut R) -> io::Result<u64> {
    let mut text = [0u8; 17];
    row.read_exact(&mut text)?;
    Ok(text.iter().fold(0, |n, byte| n << 4 | digit(*byte)))
}

// The next columns of a row, so many.
fn columns<R: Read, const N: usize>(row: &mut R) -> io::Result<[u64; N]> {
    let mut columns = [0; N];
    for value in columns.iter_mut() {
        *value = column(row)?;
    }
    Ok(columns)
}

// What the columns of the next row are read from. What stdin does not have any more counts as zero bytes; a row asks for its end once.
fn row_of<R: Read>(input: &mut R) -> io::Chain<&mut R, io::Repeat> {
    input.chain(io::repeat(0))
}

// Where the session of a draw comes from: an opening; the draw before; or no call: it is made of any three numbers.
#[derive(Clone, Copy)]
enum Origin {
    Opened,
    Before,
    Made,
}

impl From<u64> for Origin {
    // Any number but 0 and 1 is that of no call.
    fn from(column: u64) -> Origin {
        match column {
            0 => Origin::Opened,
            1 => Origin::Before,
            _ => Origin::Made,
        }
    }
}

// How much is lent of each table, of the words, of y and of the list.
#[derive(Clone, Copy)]
struct Lent {
    cdt: u64,
    polynomial: u64,
    words: u64,
    y: u64,
    list: u64,
}

// A draw. Its words are four words, and each of them raised again and again. What drawn is counts in a session that is made.
#[derive(Clone, Copy)]
struct Row {
    degree: u64,
    limit: u64,
    words: [u64; 4],
    raises: [u64; 4],
    lent: Lent,
    deviation: u64,
    drawn: u64,
    origin: Origin,
}

impl Row {
    // The next row, column by column. Five of them say nothing of a draw.
    fn read<R: Read>(input: &mut R) -> io::Result<Row> {
        let mut row = row_of(input);
        let [degree, limit] = columns::<_, 2>(&mut row)?;
        let words = columns(&mut row)?;
        let raises = columns(&mut row)?;
        let [cdt, polynomial, words_lent, y, list] = columns::<_, 5>(&mut row)?;
        let [deviation, drawn, _, _, _, _, _, origin] = columns::<_, 8>(&mut row)?;
        Ok(Row {
            degree,
            limit,
            words,
            raises,
            lent: Lent {
                cdt,
                polynomial,
                words: words_lent,
                y,
                list,
            },
            deviation,
            drawn,
            origin: Origin::from(origin),
        })
    }

    // The session that the draw takes, with the refusal of its opening.
    fn opening(&self, before: Session) -> Opened {
        let degree = self.degree as usize;
        let deviation = self.deviation;
        match self.origin {
            Origin::Opened => Session::open(degree, deviation),
            Origin::Before => Opened {
                refusal: 0,
                session: before,
            },
            Origin::Made => Opened {
                refusal: 0,
                session: Session {
                    degree,
                    deviation,
                    drawn: self.drawn,
                },
            },
        }
    }

    // Word i: one of the four, raised once for each attempt before its own.
    fn word(&self, i: usize) -> u64 {
        let raise = self.raises[i % 4];
        self.words[i % 4].wrapping_add(raise.wrapping_mul(i as u64 / 4))
    }

    // Draws over the tables, into the first values of y and the first entries of the list.
    fn draw(&self, tables: &Tables, session: Session, y: &mut [i32], list: &mut [u32]) -> Drawn {
        let words: [u64; 516] = array::from_fn(|i| self.word(i));
        session.draw(
            self.limit as usize,
            part(&tables.cdt, self.lent.cdt),
            part(&tables.polynomial, self.lent.polynomial),
            part(&words, self.lent.words),
            part_mut(y, self.lent.y),
            part_mut(list, self.lent.list),
        )
    }
}

// The tables that draws are over, a row each. A draw is lent the first columns of each.
#[derive(Clone, Copy)]
struct Tables {
    cdt: [u64; COLUMNS],
    polynomial: [u64; COLUMNS],
}

impl Tables {
    // The next two rows.
    fn read<R: Read>(input: &mut R) -> io::Result<Tables> {
        let cdt = columns(&mut row_of(input))?;
        let polynomial = columns(&mut row_of(input))?;
        Ok(Tables { cdt, polynomial })
    }

    // How many draws follow: the last column of the CDT table's row.
    fn draws(&self) -> u64 {
        self.cdt[COLUMNS - 1]
    }
}

// The first items, as many as are asked for and there are.
fn part<T>(items: &[T], count: u64) -> &[T] {
    let n = items.len().min(count as usize);
    &items[..n]
}

// The same, to be written.
fn part_mut<T>(items: &mut [T], count: u64) -> &mut [T] {
    let n = items.len().min(count as usize);
    &mut items[..n]
}

// Samples, each with a space before it.
#[derive(Clone, Copy)]
struct Samples<'a>(&'a [i32]);

impl<'a> fmt::Display for Samples<'a> {
    fn fmt<W: fmt::Write>(&self, f: &mut fmt::Formatter<W>) -> fmt::Result {
        for sample in self.0 {
            write!(f, " {sample}")?;
        }
        Ok(())
    }
}

// The memory of a read list, and how many entries a call wrote there.
#[derive(Clone, Copy)]
struct ReadList<'a> {
    memory: &'a [u32],
    entries: usize,
}

impl<'a> fmt::Display for ReadList<'a> {
    fn fmt<W: fmt::Write>(&self, f: &mut fmt::Formatter<W>) -> fmt::Result {
        let filled = read_list::filled(self.memory, self.entries);
        let length = filled.len();
        write!(f, " {length}")?;
        if let (Some(first), Some(last)) = (filled.first(), filled.last()) {
            write!(f, " {first} {last}")?;
        }
        let sum = sum_of(self.memory);
        write!(f, " {sum}")
    }
}

// A sum in which each entry counts by its place.
fn sum_of(list: &[u32]) -> u64 {
    let mut sum: u64 = 0;
    for entry in list {
        sum = (sum * 1000003 + u64::from(*entry)) % 2147483647;
    }
    sum
}

// What a draw leaves.
#[derive(Clone, Copy)]
struct Outcome<'a> {
    opening: u32,
    answer: DrawAnswer,
    next: Session,
    samples: Samples<'a>,
    list: &'a [u32],
}

impl<'a> fmt::Display for Outcome<'a> {
    fn fmt<W: fmt::Write>(&self, f: &mut fmt::Formatter<W>) -> fmt::Result {
        let opening = self.opening;
        let DrawAnswer {
            refusal,
            attempts,
            accepted,
            entries,
        } = self.answer;
        let Session {
            degree,
            deviation,
            drawn,
        } = self.next;
        write!(
            f,
            " {opening}; {refusal} {attempts} {accepted} {entries}; {degree} {deviation} {drawn};"
        )?;
        let samples = self.samples;
        let read_list = ReadList {
            memory: self.list,
            entries,
        };
        write!(f, "{samples};{read_list}")
    }
}

// Makes the draw of a row, and shows what it leaves. Hands back the next session.
fn show_draw<W: Write>(
    out: &mut W,
    row: &Row,
    tables: &Tables,
    before: Session,
) -> io::Result<Session> {
    let opened = row.opening(before);
    let mut y = [5; 9];
    let mut list = [7; 5940];
    let drawn = row.draw(tables, opened.session, &mut y, &mut list);
    let outcome = Outcome {
        opening: opened.refusal,
        answer: drawn.answer,
        next: drawn.session,
        samples: Samples(&y),
        list: &list,
    };
    writeln!(out, "{outcome}")?;
    Ok(drawn.session)
}

// A proved loop has to end, and nothing says that stdin does: so the tables are counted, up to a number that no run uses up.
fn main(rt: HostRuntime) -> io::Result<()> {
    let mut input = BufReader::new(rt.alloc(), rt.reader())?;
    let mut out = BufWriter::new(rt.alloc(), io::writer(&rt))?;
    let mut session = Session {
        degree: 0,
        deviation: 0,
        drawn: 0,
    };
    for _ in 0..u64::MAX {
        let tables = Tables::read(&mut input)?;
        let draws = tables.draws();
        if draws == 0 {
            break;
        }
        for _ in 0..draws {
            let row = Row::read(&mut input)?;
            session = show_draw(&mut out, &row, &tables, session)?;
        }
    }
    out.flush()
}
