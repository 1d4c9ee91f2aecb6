ghost use Rattle.std.specs.Prelude.{◌≡◌, ◌≤◌, length, vec_capacity};

/// Makes a list this long, within the room that it has: if it was shorter or longer, each place gets this value; if not, it
/// stays as it is. It takes no memory.
pub fn set_length<T: Copy>(list: &mut Vec<T>, count: usize, value: T)
    requires { count ≤ vec_capacity list.old }
    ensures count { length list.new.items ≡ count }
    ensures room { vec_capacity list.new ≡ vec_capacity list.old }
{
    if list.len() == count {
        return;
    }
    list.clear();
    'places: while list.len() < count {
        list.push_reserved(value);
    }
}
