//! The words of a text, without blanks and comments.
ghost use Rattle.std.specs.Prelude.{◌≡◌};
ghost use Rattle.whole_text.specs.Tokens.{TakeAll};
ghost use Rattle.whole_text.specs.laws.Joined.{TakeAll-prop};

use crate::packed::TokenList;
use crate::words::Words;
use base::Items;

/// A list of bytes.
pub type ByteList = Items<u8>;

/// The words of a text: their bytes, one word right after another, and a token for each word.
pub struct TokenText {
    pub bytes: ByteList,
    pub tokens: TokenList,
    pub ghost joined: { TakeAll tokens bytes } by { TakeAll-prop tokens bytes },
}

impl Drop for TokenText {
    fn drop(self) {
        let TokenText {
            bytes: _bytes,
            tokens: _tokens,
        } = self;
    }
}

impl TokenText {
    ghost use Rattle.whole_text.specs.TokenTexts.{words_of};
    ghost use Rattle.whole_text.specs.Steps.{end_line};

    /// The words, from the first one on.
    pub fn words(&self) -> Words<'_>
        ensures { result ≡ words_of self.now }
    {
        self.tokens.words_in(self.bytes.as_slice())
    }

    /// The line of the last word, or 1 where there is none.
    pub fn end_line(&self) -> u64
        ensures { result ≡ end_line (words_of self.now) }
    {
        self.tokens.last_line()
    }
}
