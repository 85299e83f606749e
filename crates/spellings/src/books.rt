// A book in the program's tables: read, written, and put to use.
use crate::Book;
use book::reader::read;
use definitions::{NO_ROOT, Refusal};
use plainform::writer::write;
use showing::printing::print_numbers;
use showing::using::used;
use std::io;
use transcripts::transcription::transcribe;

impl Book {
    // Reads a book into tables where something stood before.
    pub(crate) fn read(text: &[u8]) -> Result<Book, Refusal> {
        let mut nodes = [7u32; 62];
        let mut classes = [7u64; 9];
        let mut roots = [7u32; 7];
        let mut plains = [7u32; 5];
        let header = read(text, &mut nodes, &mut classes, &mut roots, &mut plains)?;
        Ok(Book {
            header,
            nodes,
            classes,
            roots,
            plains,
        })
    }

    // Writes its plain form; answers how many bytes that has.
    pub(crate) fn write(&self, text: &mut [u8]) -> Result<usize, Refusal> {
        write(
            self.header,
            &self.nodes,
            &self.classes,
            &self.roots,
            &self.plains,
            text,
        )
    }

    // The models of four phones, in a buffer for so many of three states.
    pub fn show_models(&self, rt: &impl Print) -> io::Result<()> {
        let sequence = [1u32, 2, self.header.phones.max(2), 1];
        let mut models = [7u32; 12];
        print!(rt; "  models of")?;
        print_numbers(rt, &sequence)?;
        print!(rt; ":")?;
        match transcribe(
            self.header,
            &self.nodes,
            &self.classes,
            &self.roots,
            &self.plains,
            &sequence,
            &mut models,
        ) {
            Ok(tally) => {
                if let Some(models) = models.get(..tally.models) {
                    print_numbers(rt, models)?;
                    print!(rt; " after {} questions", tally.questions)?;
                }
            }
            Err(refusal) => print!(rt; " {refusal}")?,
        }
        println!(rt)
    }

    // What writing into a buffer answers that is too short.
    pub fn show_refused(&self, rt: &impl Print, what: &str, text: &mut [u8]) -> io::Result<()> {
        print!(rt; "  {what}:")?;
        match self.write(text) {
            Ok(count) => print!(rt; " {count}")?,
            Err(refusal) => print!(rt; " {refusal}")?,
        }
        if used(text) == 0 {
            print!(rt; ", text cleared")?;
        }
        println!(rt)
    }

    // Too short a buffer for any book: 18 comes before 33.
    fn show_foreign_case(&self, rt: &impl Print, what: &str) -> io::Result<()> {
        self.show_refused(rt, what, &mut [7u8; 31])
    }

    // The book with one number of the header or one word changed: the ninth class, the second root, the plain phone of
    // silence.
    pub fn show_foreign(self, rt: &impl Print) -> io::Result<()> {
        let mut changed = self;
        changed.header.half = 4;
        changed.show_foreign_case(rt, "half-width 4")?;
        changed = self;
        changed.classes[8] = 1;
        changed.show_foreign_case(rt, "a ninth class")?;
        changed = self;
        changed.roots[1] = 0;
        changed.show_foreign_case(rt, "the second root 0")?;
        changed.roots[1] = NO_ROOT;
        changed.show_foreign_case(rt, "no second root")?;
        changed = self;
        changed.plains[0] = 1;
        changed.show_foreign_case(rt, "a plain phone of silence")
    }
}
