ghost use Rattle.std.specs.Prelude.{◌≡◌, [], IsUtf8, decimal};
ghost use Rattle.std.specs.Fmt.{signed_decimal};
ghost use Rattle.farkas_check.specs.Ratios.{ratio_text};
ghost use Rattle.report.specs.Text.{wide_text};
ghost use Rattle.report.specs.Appends.{Appends};

use farkas_check::Ratio;
use itoa::Buffer;
use std::alloc::{AllocError, Global};
use std::marker::Model;

/// A text that is being made, which contracts see as its bytes.
#[derive(Debug, Drop)]
pub(crate) struct ReportText {
    inner: String,
}

impl Model for ReportText {
    ghost use Rattle.std.specs.Prelude.{List, ℕ, string_bytes};

    ghost Value = { List ℕ };

    ghost view = { λ t. string_bytes t.inner };
}

impl ReportText {
    pub(crate) fn new(alloc: Global) -> ReportText
        ensures { result ≡ [] }
    {
        ReportText {
            inner: String::new(alloc),
        }
    }

    pub(crate) fn as_str(&self) -> &str
        ensures { result.now ≡ self.now }
    {
        self.inner.as_str()
    }

    pub(crate) fn into_bytes(self) -> Vec<u8>
        ensures bytes { result.items ≡ self }
        ensures utf8 { IsUtf8 result.items }
    {
        let _ = self.inner.as_str();
        self.inner.into_bytes()
    }

    pub(crate) fn put(&mut self, part: &str) -> Result<(), AllocError>
        ensures { Appends self.old self.new result part.now }
    {
        self.inner.push_str(part)
    }

    pub(crate) fn put_count(&mut self, n: u128) -> Result<(), AllocError>
        ensures { Appends self.old self.new result (decimal n) }
    {
        self.put(Buffer::new().format(n))
    }

    pub(crate) fn put_number(&mut self, n: i128) -> Result<(), AllocError>
        ensures { Appends self.old self.new result (signed_decimal n) }
    {
        self.put(Buffer::new().format(n))
    }

    pub(crate) fn put_ratio(&mut self, ratio: &Ratio) -> Result<(), AllocError>
        ensures { Appends self.old self.new result (ratio_text ratio.now) }
    {
        self.put_number(ratio.num())?;
        if ratio.den() == 1 {
            return Ok(());
        }
        self.put("/")?;
        self.put_number(ratio.den())
    }

    /// Two numbers whose product or sum has no 128 bits.
    #[tactic(auto, unfolding(crate::specs::Text::wide_text))]
    pub(crate) fn put_wide(
        &mut self,
        left: i128,
        right: i128,
        times: bool,
    ) -> Result<(), AllocError>
        ensures { Appends self.old self.new result (wide_text left right times) }
    {
        self.put("wide ")?;
        self.put_number(left)?;
        self.put(if times { " * " } else { " + " })?;
        self.put_number(right)
    }
}
