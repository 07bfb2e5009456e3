// The words that commands begin with.
ghost use Rattle.std.specs.Prelude.{◌≡◌};
ghost use Rattle.std.specs.Result.{result_ok};
ghost use Rattle.wording.specs.Names.{form_of, verb_names, verb_of};

use std::str::FromStr;

// Named in the text of a fault where a line begins with another word. No const: it would have no clause that pins it.
pub fn verbs() -> &'static str
    ensures { result.now ≡ verb_names }
{
    "table, gap, differ, open, place, pick, settle, standing or overview"
}

#[derive(Clone, Copy)]
pub enum Verb {
    Table,
    Gap,
    Differ,
    Open,
    Place,
    Pick,
    Settle,
    Standing,
    Overview,
}

// A word that names no verb.
#[derive(Clone, Copy)]
pub struct UnknownVerb;

// The command that the word names.
impl FromStr for Verb {
    type Err = UnknownVerb;

    ghost from_str_gives = { λ word r. result_ok r ≡ verb_of word };

    #[tactic(auto, unfolding(crate::specs::Names::verb_of, crate::specs::Names::verb_among))]
    fn from_str(word: &str) -> Result<Verb, UnknownVerb> {
        match word {
            "table" => Ok(Verb::Table),
            "gap" => Ok(Verb::Gap),
            "differ" => Ok(Verb::Differ),
            "open" => Ok(Verb::Open),
            "place" => Ok(Verb::Place),
            "pick" => Ok(Verb::Pick),
            "settle" => Ok(Verb::Settle),
            "standing" => Ok(Verb::Standing),
            "overview" => Ok(Verb::Overview),
            _ => Err(UnknownVerb),
        }
    }
}

impl Verb {
    // How its line is written.
    pub fn form(&self) -> &'static str
        ensures { result.now ≡ form_of self.now }
    {
        match self {
            Verb::Table => "table QUESTION.. : OPTION.., OPTION..",
            Verb::Gap => "gap QUESTION QUESTION DISTANCE",
            Verb::Differ => "differ QUESTION QUESTION",
            Verb::Open => "open SIZE..",
            Verb::Place => "place RULE",
            Verb::Pick => "pick QUESTION OPTION",
            Verb::Settle => "settle",
            Verb::Standing => "standing QUESTION",
            Verb::Overview => "overview",
        }
    }
}
