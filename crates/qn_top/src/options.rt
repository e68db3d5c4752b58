//! The options among the words of a command, and their values.
ghost use Rattle.std.specs.Prelude.{◌≡◌, map, string_bytes};
ghost use Rattle.std.specs.List.{list_any};
ghost use Rattle.std.specs.Str.{bytes_eq};
ghost use Rattle.qn_top.specs.Options.{are_options, has_option, may_stand, option_text, value_of};

use qn_commands::Path;

/// The names of options.
#[derive(Clone, Copy)]
pub(crate) enum OptionName {
    Image,
    Timing,
    Id,
    Kind,
    Form,
    Watchdog,
    Resource,
    Port,
    Turns,
    Leave,
    StartMode,
    Images,
    Polls,
}

impl OptionName {
    fn text(self) -> &'static str
        ensures { result.now ≡ option_text self }
    {
        match self {
            OptionName::Image => "--image",
            OptionName::Timing => "--timing",
            OptionName::Id => "--id",
            OptionName::Kind => "--kind",
            OptionName::Form => "--form",
            OptionName::Watchdog => "--watchdog",
            OptionName::Resource => "--resource",
            OptionName::Port => "--port",
            OptionName::Turns => "--turns",
            OptionName::Leave => "--leave",
            OptionName::StartMode => "--start-mode",
            OptionName::Images => "--images",
            OptionName::Polls => "--polls",
        }
    }
}

/// Whether the words are options of these names, each with a value and none of them twice.
#[tactic(auto, using(crate::proofs::OptionWords::are_options_over))]
pub(crate) fn are_options(known: &[OptionName], words: &[String]) -> bool
    ensures { result ≡ are_options known.now (map string_bytes words.now) }
{
    let mut rest = words;
    'options: while let [option, _, others @ ..] = rest {
        if !may_stand(known, option.as_bytes(), others) {
            return false;
        }
        rest = others;
    }
    rest.is_empty()
}

/// Whether the option is one of these names, and none of the others.
#[tactic(auto, unfolding(crate::specs::Options::may_stand))]
fn may_stand(known: &[OptionName], option: &[u8], others: &[String]) -> bool
    ensures { result ≡ may_stand known.now option.now (map string_bytes others.now) }
{
    is_known(known, option) && !has_option(others, option)
}

fn is_known(known: &[OptionName], option: &[u8]) -> bool
    ensures { result ≡ list_any (λ name. bytes_eq (option_text name) option.now) known.now }
{
    known.iter().any(|name| name.text().as_bytes() == option)
}

fn has_option(words: &[String], option: &[u8]) -> bool
    ensures { result ≡ has_option option.now (map string_bytes words.now) }
{
    value_at(words, option).is_some()
}

/// The value of the option of this name, the first where it stands several times.
pub(crate) fn value_of<'words>(words: &'words [String], name: OptionName) -> Option<Path<'words>>
    ensures { result ≡ value_of (option_text name) (map string_bytes words.now) }
{
    value_at(words, name.text().as_bytes())
}

#[tactic(auto, using(crate::proofs::OptionWords::value_of_over))]
fn value_at<'words>(words: &'words [String], option: &[u8]) -> Option<Path<'words>>
    ensures { result ≡ value_of option.now (map string_bytes words.now) }
{
    let mut rest = words;
    'words: while let [name, value, others @ ..] = rest {
        if name.as_bytes() == option {
            return Some(Path::new(value.as_str()));
        }
        rest = others;
    }
    None
}
