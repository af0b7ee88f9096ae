//! Laws of the code that trimming adds: its bodies can be spelled, and what they do on a small machine, whose operators
//! are those of that code.

ghost use Rattle.std.specs.Prelude.{ℕ, ◌≤◌, Option, IfSome};
ghost use Rattle.wc_write.specs.Values.{IsU32};
ghost use Rattle.wc_gc.specs.AddedCode.{growing_body, stack_body};
ghost use Rattle.wc_gc.specs.MachineLaws.{IsGrowingRealloc, IsSpellable, IsStackCode};

/// The bodies of `realloc_via_memory_grow` and `allocate_stack_via_realloc` can be spelled, as
/// `wc_write::laws::body_text_read` asks. So the bytes that these answer spell them, and no other bodies.
pub fn added_bodies_are_spellable()
    ensures growing { (page_size_log2 : ℕ) → page_size_log2 ≤ 16 →
        IsSpellable (growing_body page_size_log2 0) }
    ensures stack { (realloc stack : ℕ) (state : Option ℕ) → IsU32 realloc → IsU32 stack →
        IfSome state IsU32 → IsSpellable (stack_body realloc stack state) }
{}

/// The body of `realloc_via_memory_grow`, for every state and every list of answers to growths of the memory: it traps
/// unless the old pointer and the old length are 0 and the new length is 65536, whatever the alignment is. So asked, it
/// traps where growth is refused. Else it answers the old size in bytes, and the memory has the pages of 65536 bytes
/// more.
pub fn growing_body_grows()
    ensures { (page_size_log2 : ℕ) → page_size_log2 ≤ 16 →
        IsGrowingRealloc page_size_log2 (growing_body page_size_log2 0) }
{}

/// The body of `allocate_stack_via_realloc`, for every state. It asks the realloc for 65536 bytes, and where that
/// answers it sets the stack pointer to the answer plus 65536, modulo 2^32. With a state, which is another global, it
/// does so only where that is 0.
///
/// Over every list of calls of it, answers and traps of the realloc, and numbers other than 0 that other code writes
/// into the state, the realloc is called at most once, and exactly once where a call finds 0. Once it has answered, the
/// state is 2 if nothing else writes it. A call that finds another state changes nothing and calls nothing.
pub fn stack_body_allocates()
    ensures { (realloc stack : ℕ) (state : Option ℕ) →
        IsStackCode realloc stack state (stack_body realloc stack state) }
{}
