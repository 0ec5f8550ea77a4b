// The theorem about closed files, as the contract of a function.
ghost use Rattle.closedfiles.specs.Closed.{ClosedFilesRead};

// The closed file of a copy is legal, and each page reads as the marks and counts that it was written from.
pub fn closed_files_read()
    ensures { ClosedFilesRead }
{}
