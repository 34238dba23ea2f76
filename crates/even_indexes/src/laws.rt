//! What holds of an index that was written level by level, each shown by a function that does nothing.
ghost use Rattle.even_indexes.specs.Laws.{EvenIsWhole, OneIsItself};

/// Index pages that are written level by level over the pages of a file make a whole index of them: its list is that of the file's pages, and its index
/// pages are those that were written, at most a sixteenth of the file's pages and four. It does nothing: its contract is the law.
pub fn an_even_index_is_whole()
    ensures { EvenIsWhole }
{}

/// A file of one page has no index page: the page is its index. It does nothing: its contract is the law.
pub fn a_page_is_its_own_index()
    ensures { OneIsItself }
{}
