//! Lines at their seats, and away from them.

ghost use Rattle.std.specs.Prelude.{◌≡◌, ◌≤◌, [], map, vec_len, vec_capacity, IsSome};
ghost use Rattle.std.specs.List.{All};

/// A line, and the seat at which it is served. It is over their types, since no struct may name a seat's beside that of a boxed line.
#[derive(Drop)]
pub(crate) struct Post<S, L> {
    /// The seat.
    pub seat: Option<S>,
    /// The line.
    pub line: L,
}

/// Gives each line the seat of its number. The posts have room for all.
pub(crate) fn seat_lines<S, L>(lines: &mut Vec<L>, seats: &mut Vec<S>, posts: &mut Vec<Post<S, L>>)
    requires as_many { vec_len seats.old ≡ vec_len lines.old }
    requires empty { posts.old.items ≡ [] }
    requires room { vec_len lines.old ≤ vec_capacity posts.old }
    ensures lines { map (λ post. post.line) posts.new.items ≡ lines.old.items }
    ensures seats { map (λ post. post.seat) posts.new.items ≡ map (λ seat. Some seat) seats.old.items }
    ensures no_line { lines.new.items ≡ [] }
    ensures no_seat { seats.new.items ≡ [] }
    ensures line_room { vec_len lines.old ≤ vec_capacity lines.new }
    ensures seat_room { vec_len seats.old ≤ vec_capacity seats.new }
{
    while !lines.is_empty() {
        let line = lines.remove(0);
        let seat = Some(seats.remove(0));
        posts.push_reserved(Post { seat, line });
    }
}

/// Takes each line and its seat from the posts, in their order. There is room for all.
pub(crate) fn leave_posts<S, L>(posts: &mut Vec<Post<S, L>>, lines: &mut Vec<L>, seats: &mut Vec<S>)
    requires seated { All (λ post. IsSome post.seat) posts.old.items }
    requires no_line { lines.old.items ≡ [] }
    requires no_seat { seats.old.items ≡ [] }
    requires line_room { vec_len posts.old ≤ vec_capacity lines.old }
    requires seat_room { vec_len posts.old ≤ vec_capacity seats.old }
    ensures no_post { posts.new.items ≡ [] }
    ensures lines { lines.new.items ≡ map (λ post. post.line) posts.old.items }
    ensures seats { map (λ seat. Some seat) seats.new.items ≡ map (λ post. post.seat) posts.old.items }
{
    while !posts.is_empty() {
        let Post { seat, line } = posts.remove(0);
        lines.push_reserved(line);
        seats.push_reserved(seat.unwrap());
    }
}
