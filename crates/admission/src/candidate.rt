// A program that is being judged, once its chain is walked.
ghost use Rattle.std.specs.Prelude.{◌≡◌, ◌^◌, ◌<◌, length};
ghost use Rattle.admission.specs.Tables.{line, owner, height};

use crate::chain::Chain;
use crate::table::number_at;
use platform::CoreDescription;

#[derive(Drop)]
pub(crate) struct Candidate<'t, 'l> {
    pub(crate) description: CoreDescription,
    pub(crate) chain: Chain<'t>,
    // one for each word of the store
    pub(crate) lines: &'l [u16],
    ghost few: { length lines.now < 2 ^ 16 },
}

impl Candidate<'_, '_> {
    pub(crate) fn word_count(&self) -> u16
        ensures { result ≡ length self.now.lines.now }
    {
        self.lines.len() as u16
    }

    // The line of the word at an address.
    pub(crate) fn line(&self, address: u16) -> u16
        ensures { result ≡ line self.now.lines.now address }
    {
        number_at(self.lines, usize::from(address))
    }

    pub(crate) fn owner(&self, address: u16) -> u16
        ensures { result ≡ owner self.now.lines.now address }
    {
        self.line(address) / 32
    }

    pub(crate) fn height(&self, address: u16) -> u16
        ensures { result ≡ height self.now.lines.now address }
    {
        self.line(address) % 32
    }
}
