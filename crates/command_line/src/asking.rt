//! What `solve`, `verify` and `encode` are asked of two graphs.

ghost use Rattle.std.specs.Prelude.{◌≡◌, IfSome, true};
ghost use Rattle.graph_theory.specs.Embedding.{is_injective};
ghost use Rattle.command_line.specs.CommandLine.{question_from};
ghost use Rattle.command_line.specs.Pairs.{AreNamed};
ghost use Rattle.command_line.specs.Questions.{IsQuestion, plain_question};

use crate::pairs::Pairs;
use graph_theory::embedding::Maps;
use graph_theory::lad_text::LadKind;
use std::marker::Model;

/// Whether the copy is to be an induced one, which images have to differ (any two in the induced kind), at most 64 pairs of pattern
/// vertices of which the first is to have the lesser image, and the format of both graphs.
#[derive(Drop)]
pub struct AskWords {
    induced: bool,
    maps: Maps,
    less: Pairs,
    format: LadKind,
}

impl Model for AskWords {
    ghost use Rattle.std.specs.Prelude.{◌≡◌, true};
    ghost use Rattle.graph_theory.specs.Embedding.{is_injective};
    ghost use Rattle.command_line.specs.Questions.{Question};

    ghost Value = { Question };

    ghost view = { λ w. record {
      induced = w.induced;
      maps = w.maps;
      less = w.less;
      format = w.format;
    } };

    ghost invariant = { λ w. w.induced ≡ true → is_injective w.maps ≡ true };
}

/// Whether the maps give any two vertices two images.
fn is_injective(maps: Maps) -> bool
    ensures { result ≡ is_injective maps }
{
    match maps {
        Maps::Injective => true,
        Maps::Local | Maps::Any => false,
    }
}

impl AskWords {
    /// What is asked with these words; induced copies are those of injective maps alone.
    pub fn new(induced: bool, maps: Maps, less: Pairs, format: LadKind) -> Option<AskWords>
        ensures { result ≡ question_from induced (Some maps) (Some less) (Some format) }
    {
        if induced && !is_injective(maps) {
            return None;
        }
        Some(AskWords {
            induced,
            maps,
            less,
            format,
        })
    }

    /// The question of injective maps, with no order of images.
    pub fn plain(induced: bool, format: LadKind) -> AskWords
        ensures { result ≡ plain_question induced format }
    {
        AskWords {
            induced,
            maps: Maps::Injective,
            less: Pairs::none(),
            format,
        }
    }

    /// Whether non-edges are kept too.
    pub fn induced(&self) -> bool
        ensures { result ≡ self.now.induced }
    {
        self.induced
    }

    /// Which images have to differ.
    pub fn maps(&self) -> Maps
        ensures maps { result ≡ self.now.maps }
        ensures injective { self.now.induced ≡ true → is_injective result ≡ true }
    {
        self.maps
    }

    /// The pairs of pattern vertices of which the first is to have the lesser image, in the order in which they are named.
    pub fn less(&self) -> &[(u32, u32)]
        ensures pairs { result.now ≡ self.now.less }
        ensures named { AreNamed result.now }
    {
        self.less.as_slice()
    }

    /// The format of both graphs.
    pub fn format(&self) -> LadKind
        ensures { result ≡ self.now.format }
    {
        self.format
    }
}
