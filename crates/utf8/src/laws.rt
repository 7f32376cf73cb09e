// What is promised of any bytes and their letters.
ghost use Rattle.utf8.specs.Laws.{Laws};

// The laws of letters and bytes: that this function is accepted is their proof.
pub fn utf8_laws()
    ensures { Laws }
{}
