//! The calls of an issued set.

ghost use Rattle.std.specs.Prelude.{◌≡◌, [], length};
ghost use Rattle.store.specs.Windows.{model_at};
ghost use Rattle.set.specs.Answering.{PairAsked, JudgeAsked};
ghost use Rattle.set.specs.Exact.{FiveExact, FiveFit, FiveInclude, ValuesTell};
ghost use Rattle.set.specs.Histories.{verdict_told};
ghost use Rattle.set.specs.Histories.Asked.{compare as comparing, judge as judging, recall as recalling};
ghost use Rattle.set.specs.declared.state.State.TheVariants.{DrawnUp as drawn_up, Issued as issued};
ghost use Rattle.set.specs.Histories.Told.{granted, included, fits};
ghost use Rattle.set.specs.Keeping.{Found};
ghost use Rattle.set.specs.Law.{Only, CompareEnds, JudgeEnds};
ghost use Rattle.set.specs.Leading.{Steps};
ghost use Rattle.set.specs.Worked.{WorkedPairs};

use super::keeping::find;
use super::questions::{check_message, declared};
use super::{DrawnUp, Issued};
use crate::expected::Expected;
use crate::families::five;
use models::model::Model;
use parts::refusal::Refusal;
use rules::chain::Chain;
use rules::family::RuleFamily;
use rules::verdict::Verdict;

impl<'a> Issued<'a> {
    fn find(&self, number: u32) -> Result<Option<Model<'_>>, Refusal>
        ensures { Found self.now.sheet.now self.now.slots.at number result }
    {
        find(self.sheet, &self.slots, number)
    }

    // The questions of compare, and the models that it compares.
    fn pair(&self, sent: u32, expected: u32) -> Result<(Model<'_>, Expected<'_>), Refusal>
        ensures { PairAsked self.now.sheet.now self.now.slots.at sent expected result }
    {
        let sent_found = self.find(sent)?;
        let expected_found = self.find(expected)?;
        let sent_model = declared(sent_found, sent)?;
        let expected_model = declared(expected_found, expected)?;
        let conflict_free = Expected::of(&expected_model)?;
        Ok((sent_model, conflict_free))
    }

    // The questions of judge, and the model that it judges by.
    fn judged_by(&self, number: u32, message: &[u32]) -> Result<Expected<'_>, Refusal>
        ensures { JudgeAsked self.now.sheet.now self.now.slots.at number message.now result }
    {
        let found = self.find(number)?;
        let model = declared(found, number)?;
        let conflict_free = Expected::of(&model)?;
        check_message(message)?;
        Ok(conflict_free)
    }

    #[tactic(auto, using(crate::proofs::Exact::five_include, crate::proofs::Worked::pairs_worked))]
    /// Of the expected model's rules, and then of those of the family hung behind, the first
    /// that some message of the sent model breaks; none where it is included. What an answer
    /// costs is in docs/RULES.md.
    pub fn compare<F: RuleFamily>(
        &self,
        sent: u32,
        expected: u32,
        behind: &F,
    ) -> Result<Option<Verdict>, Refusal>
        ensures answer { Only (CompareEnds (F.rules behind.now) (length self.now.sheet.now) (model_at self.now.sheet.now self.now.slots.at sent) (model_at self.now.sheet.now self.now.slots.at expected) sent expected) (verdict_told included result) }
        ensures law { Steps (F.rules behind.now) (comparing sent expected) (verdict_told included result) issued self.now.sheet.now self.now.slots.at issued self.now.sheet.now self.now.slots.at }
        ensures exact { FiveInclude }
        ensures worked { WorkedPairs }
    {
        let (sent, expected) = self.pair(sent, expected)?;
        let rules = Chain::of(five(expected), behind);
        Ok(rules.broken_by_model(&sent))
    }

    /// The first rule of the model at a number that the message breaks; none where it fits.
    pub fn judge(&self, number: u32, message: &[u32]) -> Result<Option<Verdict>, Refusal>
        ensures answer { Only (JudgeEnds (length self.now.sheet.now) (model_at self.now.sheet.now self.now.slots.at number) number message.now) (verdict_told fits result) }
        ensures law { Steps [] (judging number message.now) (verdict_told fits result) issued self.now.sheet.now self.now.slots.at issued self.now.sheet.now self.now.slots.at }
        ensures exact { FiveExact × FiveFit }
        ensures values { ValuesTell }
    {
        let expected = self.judged_by(number, message)?;
        Ok(five(expected).broken_by_message(message))
    }

    /// The set, drawn up again.
    pub fn recall(self) -> DrawnUp<'a>
        ensures same { (result.sheet.now ≡ self.entry.sheet.now) × (result.slots.at ≡ self.entry.slots.at) }
        ensures lender { result.sheet.ghost_name ≡ self.entry.sheet.ghost_name }
        ensures law { Steps [] recalling granted issued self.entry.sheet.now self.entry.slots.at drawn_up result.sheet.now result.slots.at }
    {
        let Issued { sheet, slots } = self;
        DrawnUp { sheet, slots }
    }
}
