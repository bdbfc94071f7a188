//! What a desk keeps beside its scene: the books of it, and the history of what its report had.
ghost use Rattle.std.specs.Prelude.{◌≡◌, IfOk};
ghost use Rattle.live_report.specs.Books.{AreOf};

use crate::desks::Desk;
use desk_report::one_report;
use grid_cells::OutOfMemory;
use live_report::{Books, History};

impl Desk {
    /// Keeps from now on what each commit changes in the report, so that `Changing` is answered: at as
    /// many of the newest versions as have no more than `most` elements that came or went. What was kept
    /// before is forgotten. With 0 nothing is kept, and no commit looks at what it changes in the report.
    pub fn keep_history(&mut self, most: usize)
        ensures { self.new ≡ self.old }
    {
        drop(self.history.take());
        self.most = most;
    }

    // Makes books and lines and begins a history where they don't stand, if one is to be kept and there
    // is memory for them.
    pub(crate) fn make_books(&mut self)
        ensures { self.new ≡ self.old }
    {
        if self.most == 0 {
            return;
        }
        if let Ok(mut books) = self.take_books() {
            drop(books.make_lines(&self.scene));
            self.begin_history(&books);
            self.put_back(books);
        }
    }

    // Begins a history at the present version, where none stands.
    fn begin_history(&mut self, books: &Books)
        requires { AreOf self.old.scene books.now }
        ensures { self.new ≡ self.old }
    {
        if self.history.is_some() {
            return;
        }
        one_report();
        let _plans = self.scene.plans();
        books.report_is_there(&self.scene);
        self.history = Some(History::new(self.alloc, self.most));
    }

    /// How often the books of the scene were made whole, the first time counted, held at the greatest
    /// u64. A commit changes them by what it changes, so they are made anew only after want of memory.
    pub fn rebuilds(&self) -> u64 {
        self.builds.number()
    }

    // Puts the books of the scene back.
    pub(crate) fn put_back(&mut self, books: Books)
        requires { AreOf self.old.scene books }
        ensures { self.new ≡ self.old }
    {
        drop(self.books.replace(books));
    }

    // The books of the scene: those that stand, and else new ones. None stand until they are put back.
    pub(crate) fn take_books(&mut self) -> Result<Books, OutOfMemory>
        ensures same { self.new ≡ self.old }
        ensures books { IfOk result (AreOf self.old.scene) }
    {
        match self.books.take() {
            Some(books) => Ok(books),
            None => {
                let books = Books::of(self.alloc, &self.scene)?;
                self.builds.count_one();
                Ok(books)
            }
        }
    }
}
