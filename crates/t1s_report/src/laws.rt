//! Laws over the texts that are written.

ghost use Rattle.t1s_report.specs.DecodedText.{HasDecodedText, OneDecodedText};
ghost use Rattle.t1s_report.specs.PcapText.{OnePcapReading};

/// All octets have a decoded text.
pub fn has_decoded_text()
    ensures { HasDecodedText }
{}

/// No octets have two decoded texts.
pub fn one_decoded_text()
    ensures { OneDecodedText }
{}

/// No octets are the pcap file of two lists of records.
pub fn one_pcap_reading()
    ensures { OnePcapReading }
{}
