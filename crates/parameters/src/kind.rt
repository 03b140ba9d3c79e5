// What a channel's value is: a brightness (R', G', B', Y') or a colour difference (Cb, Cr).
ghost use Rattle.std.specs.Prelude.{◌≡◌};
ghost use Rattle.parameters.specs.Parameters.{kind_of};

#[derive(Clone, Copy)]
pub enum Kind {
    Brightness,
    Difference,
}

impl Kind {
    // Cb and Cr, channels 1 and 2 of Y'CbCr, are differences, and what is not one of these two is a brightness. (Whether
    // there is such a channel at all is asked by `model_known` and `channel_known`.)
    pub fn of(model: u8, channel: u8) -> Kind
        ensures { result ≡ kind_of model channel }
    {
        if (model == 2) & ((channel == 1) | (channel == 2)) {
            Kind::Difference
        } else {
            Kind::Brightness
        }
    }
}
