//! The game at hand, and what it has from those before.

use super::kept::Kept;
use super::known_tag::{
    CONTRACT, DEAL, DEALER, NAMES, REQUIRED, SCORE, TABLE, TRICKS, VULNERABLE, known_number,
};
use super::mark::Mark;
use super::value::{
    Unfit, deal_value, dealer_value, text_told, told_in, unescaped, vulnerable_value,
};
use dd_cards::{Hands, Seat};
use dd_file::Wanted;
use dd_score::Vulnerable;
use std::alloc::{AllocError, Global};

/// The game at hand: whether it has begun, which names its tags have, and its values.
#[derive(Drop)]
pub(crate) struct FillState {
    pub(crate) begun: bool,
    pub(crate) names: [bool; NAMES],
    pub(crate) deal: Kept<Result<Hands, Unfit>>,
    pub(crate) dealer: Kept<Option<Seat>>,
    pub(crate) vulnerable: Kept<Option<Vulnerable>>,
}

impl FillState {
    /// Before the first byte.
    pub(crate) fn new() -> FillState {
        FillState {
            begun: false,
            names: [false; NAMES],
            deal: Kept {
                own: None,
                before: Err(Unfit::NoDeal),
                lacking: Err(Unfit::NoDeal),
            },
            dealer: Kept {
                own: None,
                before: None,
                lacking: None,
            },
            vulnerable: Kept {
                own: None,
                before: None,
                lacking: None,
            },
        }
    }

    /// Does the game end before what begins here?
    pub(crate) fn ends(&self, mark: &Mark<'_>) -> bool {
        match *mark {
            Mark::EmptyLine => self.begun,
            Mark::Tag { name, .. } => self.begun && self.has_required(name),
            _ => false,
        }
    }

    // Does it have a tag of this name, which is one that every game should have?
    fn has_required(&self, name: &[u8]) -> bool {
        match known_number(name) {
            Some(number) if (number as usize) < REQUIRED => self.names[number as usize],
            _ => false,
        }
    }

    /// The game is over.
    pub(crate) fn end_game(&mut self) {
        self.begun = false;
        self.names = [false; NAMES];
        self.deal.end_game();
        self.dealer.end_game();
        self.vulnerable.end_game();
    }

    /// A tag comes.
    pub(crate) fn tell_tag(
        &mut self,
        alloc: Global,
        name: &[u8],
        quoted: &[u8],
    ) -> Result<(), AllocError> {
        let Some(number) = known_number(name) else {
            self.begun = true;
            return Ok(());
        };
        let text = unescaped(alloc, quoted)?;
        self.begun = true;
        self.names[number as usize] = true;
        self.tell(number, text.as_slice());
        Ok(())
    }

    // The tag of this number has this text.
    fn tell(&mut self, number: u8, text: &[u8]) {
        let told = told_in(text);
        let value = text_told(told, text);
        match number {
            DEAL => self.deal.tell(told, deal_value(value)),
            DEALER => self.dealer.tell(told, dealer_value(value)),
            VULNERABLE => self.vulnerable.tell(told, vulnerable_value(value)),
            _ => {}
        }
    }

    /// The tags that it lacks of those that are wanted.
    pub(crate) fn lacks(&self, wanted: Wanted) -> Wanted {
        Wanted {
            tricks: wanted.tricks && !self.names[TRICKS],
            score: wanted.score && !self.names[SCORE],
            contract: wanted.contract && !self.names[CONTRACT],
            table: wanted.table && !self.names[TABLE],
        }
    }

    /// Is it known who calls first and which sides are vulnerable?
    pub(crate) fn has_conditions(&self) -> bool {
        self.dealer.value().is_some() && self.vulnerable.value().is_some()
    }
}
