ghost use Rattle.std.specs.Prelude.{◌≡◌, ◌<◌, IfSome, MatchOption, None, Some, length, position};
ghost use Rattle.std.specs.List.{list_any};
ghost use Rattle.ld_script.specs.Fields.{cut_at_tab, is_tab};

// What stands before the first TAB of a line, and what stands behind it.
pub(crate) fn split_tab(line: &[u8]) -> Option<(&[u8], &[u8])>
    ensures { MatchOption result (cut_at_tab line.now ≡ None) (λ cut. cut_at_tab line.now ≡ Some (cut.0.now, cut.1.now)) }
{
    let Some(place) = tab_place(line) else {
        return None;
    };
    Some((&line[..place], &line[place + 1..]))
}

fn tab_place(line: &[u8]) -> Option<usize>
    ensures first { result ≡ position is_tab line.now }
    ensures within { IfSome result (λ place. place < length line.now) }
{
    line.iter().position(|byte| *byte == b'\t')
}

pub(crate) fn has_tab(field: &[u8]) -> bool
    ensures { result ≡ list_any is_tab field.now }
{
    field.contains(&b'\t')
}
