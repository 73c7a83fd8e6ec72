//! Worked examples of requests, as laws.
ghost use Rattle.transcoding.specs.TranscodingExamples.{TranscodingExamplesHold};

/// HEAD and CONNECT are not served, whatever the target; the asterisk form has no path; a query is not built.
pub fn transcoding_examples()
    ensures { TranscodingExamplesHold }
{
    path_router::examples::target_examples();
}
