// What finds rows by words and by time.
ghost use Rattle.std.specs.Prelude.{◌≡◌, [], ◌∷◌, ◌++◌, List, Contains, OnOk, OnErr, option_map};
ghost use Rattle.gl_indexset.specs.declared.row.Row.{Row};
ghost use Rattle.gl_indexset.specs.Leaving.{without};
ghost use Rattle.gl_indexset.specs.Rising.{AreBelow};
ghost use Rattle.gl_query.specs.Tree.{Tree, polish};
ghost use Rattle.gl_words.specs.Candidates.{candidates_of};
ghost use Rattle.gl_postings.specs.Postings.{StandsFor};

use gl_indexset::Row;
use gl_moments::Moments;
use gl_query::Query;
use gl_words::Postings as Words;
use std::alloc::{AllocError, Global};

/// For each field and token, and for each minute, the positions of the rows that have it.
#[derive(Drop)]
pub struct Postings {
    pub(crate) words: Words,
    pub(crate) moments: Moments,
}

impl Postings {
    /// Those of no rows. It takes no memory.
    pub fn new(alloc: Global) -> Postings
        ensures { StandsFor result [] }
    {
        Postings {
            words: Words::new(alloc),
            moments: Moments::new(alloc),
        }
    }

    /// Puts a row in, whose position is above those of all rows held.
    ///
    /// An error changes nothing that can be asked for.
    pub fn add(&mut self, row: &Row) -> Result<(), AllocError>
        ensures ok { (rows : List Row) → StandsFor self.old rows → AreBelow row.now.position rows → OnOk result (StandsFor self.new (rows ++ row.now ∷ [])) }
        ensures err { (rows : List Row) → StandsFor self.old rows → AreBelow row.now.position rows → OnErr result (StandsFor self.new rows) }
    {
        self.words.add(row)?;
        match self.moments.add(row) {
            Ok(()) => Ok(()),
            Err(error) => {
                self.words.forget(row);
                Err(error)
            }
        }
    }

    /// Takes a row out, which is held. It takes no memory.
    pub fn forget(&mut self, row: &Row)
        ensures { (rows : List Row) → StandsFor self.old rows → Contains rows row.now → StandsFor self.new (without row.now.position rows) }
    {
        self.words.forget(row);
        self.moments.forget(row);
    }

    /// The positions of the rows that have the query's rarest required term, of equally rare ones the first in the
    /// query; `None` where it requires none. It takes no memory.
    pub fn candidates(&self, query: &Query) -> Option<&[u64]>
        ensures { (rows : List Row) → StandsFor self.now rows → (t : Tree) → query.now ≡ polish t
            → option_map (λ found. found.now) result ≡ candidates_of t rows }
    {
        self.words.candidates(query)
    }
}
