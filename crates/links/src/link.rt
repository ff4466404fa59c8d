// The links of a table: five words a link, in the order from, to, delay, cost, capacity.
ghost use Rattle.std.specs.Prelude.{◌≡◌, ◌+◌, ◌*◌, ◌<◌, ◌≤◌, length};
ghost use Rattle.network.specs.Limits.{link_words, most_links};
ghost use Rattle.network.specs.Words.{field};

use network::limits::LINK_WORDS;

// A link, as its words say.
#[derive(Clone, Copy, Debug, PartialEq, Eq)]
pub struct Link {
    pub from: usize,
    pub to: usize,
    pub delay: u32,
    pub cost: u32,
    pub capacity: u32,
}

// Word `j` of link `i`. The callers have checked that the words reach so far; a `Links` knows it.
pub fn word(words: &[u32], i: usize, j: usize) -> u32
    requires i_lt_most_links { i < most_links }
    requires j_lt_link_words { j < link_words }
    requires link_words_in_bounds { link_words * i + link_words ≤ length words.now }
    ensures { result ≡ field words.now i j }
{
    words[LINK_WORDS * i + j]
}

// The words of a table, and how many links they are.
#[derive(Clone, Copy)]
pub struct Links<'a> {
    pub words: &'a [u32],
    pub count: usize,
    ghost whole: { length words.now ≡ link_words * count },
    ghost few: { count ≤ most_links },
}

impl<'a> Links<'a> {
    // Link `i`. The callers count the links, or take its number from a list of links that was checked.
    pub fn get(&self, i: usize) -> Link
        requires { i < self.now.count }
        ensures from { result.from ≡ field self.now.words.now i 0 }
        ensures to { result.to ≡ field self.now.words.now i 1 }
        ensures delay { result.delay ≡ field self.now.words.now i 2 }
        ensures cost { result.cost ≡ field self.now.words.now i 3 }
        ensures capacity { result.capacity ≡ field self.now.words.now i 4 }
    {
        Link {
            from: word(self.words, i, 0) as usize,
            to: word(self.words, i, 1) as usize,
            delay: word(self.words, i, 2),
            cost: word(self.words, i, 3),
            capacity: word(self.words, i, 4),
        }
    }
}
