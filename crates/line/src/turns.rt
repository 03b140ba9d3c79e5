// What a turn of a line's loop works out before it stores anything: the codes of a point or a group, side by side in one number, and
// how many of them the clamp cut.
#[derive(Clone, Copy)]
pub struct Joined {
    pub number: u64,
    pub cuts: u64,
}

// The numbers of eight points or groups, and how many of their codes were cut.
#[derive(Clone, Copy)]
pub struct EightJoined {
    pub numbers: [u64; 8],
    pub cuts: u64,
}
