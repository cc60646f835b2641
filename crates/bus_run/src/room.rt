//! Lists with room that was reserved.
ghost use Rattle.std.specs.Prelude.{◌≡◌, ◌<◌, ◌≤◌, ◌+◌, ◌++◌, option_to_list, vec_len, vec_capacity};

/// Adds what was found, if it was, for which there is room.
pub fn push_found<T: Drop>(list: &mut Vec<T>, found: Option<T>)
    requires { vec_len list.old < vec_capacity list.old }
    ensures items { list.new.items ≡ list.old.items ++ option_to_list found }
    ensures len { vec_len list.new ≤ vec_len list.old + 1 }
    ensures room { vec_capacity list.new ≡ vec_capacity list.old }
{
    if let Some(item) = found {
        list.push_reserved(item);
    }
}
