// What each of a point's three channels has: R', G' and B', or Y', Cb and Cr.
#[derive(Clone, Copy)]
pub struct Channels<T> {
    pub channel0: T,
    pub channel1: T,
    pub channel2: T,
}
