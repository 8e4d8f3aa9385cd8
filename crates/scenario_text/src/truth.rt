// Truth values.
ghost use Rattle.amqp.specs.Texts.{truth};
ghost use Rattle.headers_text.specs.Shows.{or_none};
ghost use Rattle.scenario_text.specs.Reading.{Reads, Any};

pub fn read_truth(text: &str) -> Option<bool>
    ensures { Reads truth Any text.now result }
{
    match text {
        "yes" => Some(true),
        "no" => Some(false),
        _ => None,
    }
}

pub(crate) fn read_optional_truth(text: &str) -> Option<Option<bool>>
    ensures { Reads (or_none truth) Any text.now result }
{
    if text == "none" {
        return Some(None);
    }
    Some(Some(read_truth(text)?))
}
