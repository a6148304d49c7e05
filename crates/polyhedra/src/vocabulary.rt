ghost use Rattle.std.specs.Prelude.{◌≡◌, ◌↔◌, IsTrue};
ghost use Rattle.polyhedra.specs.Vocabulary.{IsVocabulary};

use items::Items;
use linear_terms::Poly;
use std::alloc::AllocError;
use std::marker::Model;

/// What is asked of the ends of formulas: how many columns an end has, those that are named, in
/// ascending order, at most 32 linear terms that the text compares, the rule of the program, and
/// further directions for loops. Terms and directions are linear and have no constant.
#[derive(Debug, Drop)]
pub struct Vocabulary {
    columns: u32,
    named: Items<u32>,
    harvested: Items<Poly>,
    rule: u32,
    extra: Items<Poly>,
}

impl Model for Vocabulary {
    ghost use Rattle.polyhedra.specs.Vocabulary as plain;

    ghost Value = { plain.Vocabulary };

    ghost view = { λ v.
        record {
          columns = v.columns;
          named = v.named;
          harvested = v.harvested;
          rule = v.rule;
          extra = v.extra;
        } };

    ghost invariant = { λ v. plain.IsVocabulary
        (record {
          columns = v.columns;
          named = v.named;
          harvested = v.harvested;
          rule = v.rule;
          extra = v.extra;
        }) };
}

impl Vocabulary {
    /// The vocabulary of parts that make one.
    pub fn from_parts(
        columns: u32,
        named: Items<u32>,
        harvested: Items<Poly>,
        rule: u32,
        extra: Items<Poly>,
    ) -> Vocabulary
        requires { IsVocabulary
            (record {
              columns = columns;
              named = named;
              harvested = harvested;
              rule = rule;
              extra = extra;
            }) }
        ensures { result
            ≡ record {
              columns = columns;
              named = named;
              harvested = harvested;
              rule = rule;
              extra = extra;
            } }
    {
        Vocabulary {
            columns,
            named,
            harvested,
            rule,
            extra,
        }
    }

    /// How many columns the end has.
    pub fn columns(&self) -> u32
        ensures columns { result ≡ self.now.columns }
        ensures valid { IsVocabulary self.now }
    {
        self.columns
    }

    /// The columns that are named, in ascending order.
    pub fn named_columns(&self) -> &[u32]
        ensures { result.now ≡ self.now.named }
    {
        self.named.as_slice()
    }

    /// The linear terms that the text compares.
    pub fn harvested_terms(&self) -> &[Poly]
        ensures { result.now ≡ self.now.harvested }
    {
        self.harvested.as_slice()
    }

    /// The rule of the program.
    pub fn rule(&self) -> u32
        ensures { result ≡ self.now.rule }
    {
        self.rule
    }

    /// Further directions.
    pub fn extra(&self) -> &[Poly]
        ensures { result.now ≡ self.now.extra }
    {
        self.extra.as_slice()
    }

    /// Whether two vocabularies are equal.
    pub fn same(&self, other: &Vocabulary) -> bool
        ensures { IsTrue result ↔ (self.now ≡ other.now) }
    {
        self.columns == other.columns
            && self.rule == other.rule
            && are_same_numbers(self.named.as_slice(), other.named.as_slice())
            && are_same_terms(self.harvested.as_slice(), other.harvested.as_slice())
            && are_same_terms(self.extra.as_slice(), other.extra.as_slice())
    }
}

impl Clone for Vocabulary {
    ghost is_clone = { λ a b. b ≡ a };

    fn clone(&self) -> Result<Vocabulary, AllocError> {
        let named = self.named.clone()?;
        let harvested = self.harvested.clone()?;
        let extra = self.extra.clone()?;
        Ok(Vocabulary {
            columns: self.columns,
            named,
            harvested,
            rule: self.rule,
            extra,
        })
    }
}

fn are_same_numbers(numbers: &[u32], others: &[u32]) -> bool
    ensures { IsTrue result ↔ (numbers.now ≡ others.now) }
{
    numbers == others
}

fn are_same_terms(terms: &[Poly], others: &[Poly]) -> bool
    ensures { IsTrue result ↔ (terms.now ≡ others.now) }
{
    terms == others
}
