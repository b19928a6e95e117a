ghost use Rattle.parity72.specs.Deciding.{SevenDecide};

/// Any seven shards decide a codeword: two codewords that agree but for two shards are one. There is no code.
pub fn any_seven_decide()
    ensures { SevenDecide }
{}
