// What a station says, as a letter to every station or to one.
ghost use Rattle.std.specs.Prelude.{◌≡◌};
ghost use Rattle.network.specs.Saying.{to_all, to_only};
ghost use Rattle.network.specs.declared.letter.Speech.TheVariants.{One};

use crate::content::Content;
use crate::letter::{Letter, Speech, To};
use stations::Stations;

impl<R: Copy> Letter<R, Stations> {
    pub(crate) fn to_all(content: Content<R, Stations>) -> Letter<R, Stations>
        ensures { result ≡ to_all content }
    {
        Letter {
            to: To::All,
            content,
        }
    }

    pub(crate) fn to_only(p: u8, content: Content<R, Stations>) -> Letter<R, Stations>
        ensures { result ≡ to_only p content }
    {
        Letter {
            to: To::Only(p),
            content,
        }
    }
}

impl<R: Copy> Speech<R, Stations> {
    // One letter, to every station.
    pub(crate) fn to_all(content: Content<R, Stations>) -> Speech<R, Stations>
        ensures { result ≡ One (to_all content) }
    {
        Speech::One(Letter::to_all(content))
    }
}
